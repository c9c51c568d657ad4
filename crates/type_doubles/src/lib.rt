// Two types of one name in a type book (refusal 4): the hashes of the names met are marked, so that most names are compared with none.
#![tactic(auto)]

ghost use Rattle.std.specs.Prelude.{◌≡◌, ◌≤◌, length};
ghost use Rattle.type_book.specs.Book.{blocks as blocks_of};
ghost use Rattle.type_doubles.specs.Doubles.{all_from, is_other, is_first, distinct as distinct_in};
ghost use Rattle.type_doubles.specs.Met.{MarkedTo, MetIs};

use type_book::block;
use type_marks::{hash, is_marked, mark};
use type_order::Order;

// So many names are compared with all before them. In a book of 65,536 types some 100 find their hash marked by chance.
const COMPARED: u32 = 192;

// No block before n is a type block of that name.
fn is_new(book: &[u8], name: &[u8], n: u32) -> bool
    ensures { result ≡ all_from (is_other book.now name.now) 0 n }
{
    (0..n).all(|i| !type_provider::is_named(book, name, i))
}

// Whether block n is no type block, or no block before it has its name.
#[tactic(auto, unfolding(crate::specs::Doubles::is_first))]
fn is_alone(book: &[u8], n: u32) -> bool
    ensures { result ≡ is_first book.now n }
{
    !block::is_type(book, n) || is_new(book, block::name(book, n), n)
}

// Whether the name of type block n has to be compared with those before it: a name whose hash is not marked is new, and is marked.
fn is_met(book: &[u8], marks: &mut [u32], n: u32) -> bool
    requires { (length marks.old ≡ 32768) × MarkedTo book.now marks.old n }
    ensures { MetIs book.now n result marks.new }
{
    if !block::is_type(book, n) {
        return false;
    }
    let h = hash(block::name(book, n));
    if is_marked(marks, h) {
        return true;
    }
    mark(marks, h);
    false
}

// Each type compared with all before it. No book comes to this.
fn all_compared(book: &[u8]) -> bool
    requires { blocks_of book.now ≤ 65536 }
    ensures { result ≡ distinct_in book.now }
{
    let n = block::blocks(book) as u32;
    (0..n).all(|i| is_alone(book, i))
}

// By an order of the names, whose time does not go by their hashes. The marks are not needed any more and lend their room.
#[tactic(auto, using(crate::proofs::Doubles::distinct_apart, crate::proofs::Doubles::distinct_twice))]
fn by_order(book: &[u8], marks: &mut [u32]) -> bool
    requires { blocks_of book.now ≤ 65536 }
    ensures { result ≡ distinct_in book.now }
{
    match type_order::decide(book, marks) {
        Order::Distinct => true,
        Order::Doubled => false,
        Order::Unknown => all_compared(book),
    }
}

// Whether no two types have one name (refusal 4). A book has at most 65,536 blocks, which is tested before. The marks may hold anything
// at first: a mark too many only costs a comparison. Where many names find their hash marked, an order of the names decides.
pub fn distinct(book: &[u8], marks: &mut [u32]) -> bool
    requires { (length marks.old ≡ 32768) × (blocks_of book.now ≤ 65536) }
    ensures { result ≡ distinct_in book.now }
{
    let n = block::blocks(book) as u32;
    let mut left = COMPARED;
    for i in 0..n {
        if !is_met(book, marks, i) {
            continue;
        }
        if left == 0 {
            return by_order(book, marks);
        }
        if !is_alone(book, i) {
            return false;
        }
        left -= 1;
    }
    true
}
