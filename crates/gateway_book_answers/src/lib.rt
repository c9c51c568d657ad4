// What is said of a book, as a number and values: the places of a block's names, and the new length after appending.
#![tactic(auto)]

ghost use Rattle.std.specs.Prelude.{◌≡◌, ◌+◌, ◌*◌, ◌≤◌};
ghost use Rattle.type_cache.specs.Append.{appended_numbers};
ghost use Rattle.gateway_lent_values.specs.Values.{Gives};
ghost use Rattle.type_book.specs.Book.{name_of, type_name_of};
ghost use Rattle.gateway_book_answers.specs.Answers.{start_of, PartGiven};

use gateway_lent_values::{done_1, done_2};
use type_cache::Appended;

// Where byte k of block n stands, at most the book's end: an offset that no slice of the book refuses.
fn place_of(book: &[u8], n: u32, k: u64) -> u64
    requires { k ≤ 254 }
    ensures { result ≡ start_of book.now (n * 512 + k) }
{
    (n as u64 * 512 + k).min(book.len() as u64)
}

// The name's offset in the book and its length.
pub fn give_name(book: &[u8], block: u32, values: &mut [u64]) -> u8
    ensures { PartGiven book.now (name_of book.now block) (block * 512 + 54) values.old result values.new }
{
    let name = type_book::block::name(book, block);
    done_2(values, place_of(book, block, 54), name.len() as u64)
}

// The type name's offset in the book and its length.
pub fn give_type_name(book: &[u8], block: u32, values: &mut [u64]) -> u8
    ensures { PartGiven book.now (type_name_of book.now block) (block * 512 + 254) values.old result values.new }
{
    let name = type_book::block::type_name(book, block);
    done_2(values, place_of(book, block, 254), name.len() as u64)
}

// The new length, or the refusal.
#[tactic(auto, unfolding(type_cache::specs::Append::appended_numbers, gateway_lent_values::specs::Values::laid))]
pub fn give_appended(answer: Appended, values: &mut [u64]) -> u8
    ensures { Gives (appended_numbers answer) values.old result values.new }
{
    match answer {
        Appended::Done(n) => done_1(values, n as u64),
        Appended::Refused(n) => n,
    }
}
