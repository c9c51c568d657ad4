// Adding the types of one checked book to another: appending where both books were checked once. Which of the controller's types our book
// knows by name is kept in one mark for each of its blocks, so neither book is searched or checked again.
#![tactic(auto)]

ghost use Rattle.std.specs.Prelude.{◌≡◌, true, ◌<◌, length, take, replicate};
ghost use Rattle.type_book.specs.Book.{is_type};
ghost use Rattle.type_provider.specs.Find.{searched as searched_of};
ghost use Rattle.type_book_check.specs.declared.BookCheck.TheVariants.{Valid};
ghost use Rattle.type_book_check.specs.Check.{ValidBook, check_book};
ghost use Rattle.type_index.specs.Trust.{Trusted};
ghost use Rattle.type_cache.specs.Same.{definition_of};
ghost use Rattle.plan_type_adds.specs.Knows.{has_mark, MarkedBy, Knows, AppendedIn};

use enc_zeros::clear_bytes;
use type_book::block;
use type_book::block::BLOCK;
use type_cache::{Appended, copy, has_room};
use type_index::{Trust, find_in};
use type_provider::searched;

// The number of marks: as many as a book has blocks at most.
pub const MARKS: usize = 65536;

// Whether type block n of the controller's book is marked.
fn is_marked(known: &[u8], n: u32) -> bool
    requires { length known.now ≡ 65536 }
    ensures { result ≡ has_mark known.now n }
{
    let i = n as usize;
    if i < MARKS {
        return known[i] == 1;
    }
    false
}

// Marks the controller's type that has the name of block i of our book, if block i is a type block and there is one.
fn mark_block(book: &[u8], controller: &[u8], index: &[u32], trust: Trust, known: &mut [u8], i: u32)
    requires { ValidBook controller.now × Trusted controller.now index.now trust × (length known.old ≡ 65536) }
    ensures { MarkedBy controller.now book.now i known.old known.new }
{
    if !block::is_type(book, i) {
        return;
    }
    let found = find_in(controller, index, trust, block::name(book, i));
    let Some(n) = found else {
        return;
    };
    known[n as usize] = 1;
}

// Marks each of the controller's types whose name our book knows. The index is one of the controller's book; once it was held against that
// book, a name of ours that the controller's book lacks costs no search of it.
pub fn mark_known(book: &[u8], controller: &[u8], index: &[u32], trust: Trust, known: &mut [u8])
    requires { ValidBook controller.now × Trusted controller.now index.now trust × (length known.old ≡ 65536) }
    ensures { Knows controller.now book.now known.new }
{
    clear_bytes(known);
    for i in 0..searched(book) {
        mark_block(book, controller, index, trust, known, i);
    }
}

// The definition of type block n: the type block, its fields and its entries.
pub fn definition(controller: &[u8], n: u32) -> &[u8]
    requires { ValidBook controller.now × (is_type controller.now n ≡ true) }
    ensures { result.now ≡ definition_of controller.now n }
{
    let fields = block::fields(controller, n) as usize;
    let entries = block::entries(controller, n) as usize;
    let from = n as usize * BLOCK;
    &controller[from..from + (fields + entries + 1) * BLOCK]
}

// Appends the definition of the controller's type block n, as `append` does, where both books were checked: 4 and 15 are what is left to
// answer.
pub fn append_in(
    buffer: &mut [u8],
    len: usize,
    controller: &[u8],
    n: u32,
    known: &mut [u8],
) -> Appended
    requires { (check_book buffer.old len ≡ Valid) × ValidBook controller.now × (is_type controller.now n ≡ true) × Knows controller.now (take len buffer.old) known.old }
    ensures { AppendedIn controller.now n buffer.old len result buffer.new known.new }
{
    if is_marked(known, n) {
        return Appended::Refused(4);
    }
    let addition = definition(controller, n);
    if !has_room(buffer.len(), len, addition.len()) {
        return Appended::Refused(15);
    }
    let longer = copy(buffer, len, addition);
    known[n as usize] = 1;
    Appended::Done(longer)
}
