// The making of an index of a book's names that says of itself whether each type found a slot: then it leads to every type, and need not be held
// against the book, which is as long a pass again.
#![tactic(auto)]

ghost use Rattle.std.specs.Prelude.{◌<◌, length};
ghost use Rattle.type_provider.specs.Find.{searched as searched_of};
ghost use Rattle.type_index_held.specs.Held.{HeldNext, FilledIs};

use enc_zeros::clear_numbers;
use type_book::block;
use type_index::{Trust, free_slot};
use type_provider::searched;

// Puts block n into the index, if it is a type block, and says whether all those before it and this one found a slot.
fn enter_next(book: &[u8], index: &mut [u32], n: u32, all: bool) -> bool
    requires { n < searched_of book.now }
    ensures { HeldNext book.now index.old n all result index.new }
{
    if !block::is_type(book, n) {
        return all;
    }
    let at = free_slot(book, index, block::name(book, n));
    if index.len() <= at {
        return false;
    }
    index[at] = n + 1;
    all
}

// Makes an index as `fill_names` does, and tells what is known of it then: that it leads to every type of the book, unless one found no slot.
pub fn fill_held(book: &[u8], index: &mut [u32]) -> Trust
    ensures { FilledIs book.now (length index.old) result index.new }
{
    clear_numbers(index);
    let mut all = true;
    for i in 0..searched(book) {
        all = enter_next(book, index, i, all);
    }
    if all { Trust::Held } else { Trust::Foreign }
}
