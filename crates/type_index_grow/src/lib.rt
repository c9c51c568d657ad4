// One type more in an index of a book's names: the index is not made anew, and leads to the new type and to all that it led to before.
#![tactic(auto)]

ghost use Rattle.std.specs.Prelude.{◌<◌};
ghost use Rattle.type_provider.specs.Find.{searched};
ghost use Rattle.type_index_grow.specs.Grow.{LastIs};

use type_book::block;
use type_index::free_slot;

// Puts type block n, where the book that the index was made for ends, into the index, and says whether it could: not where the index is so
// long that it has hints, which would move the slots as the book grows, and not where no slot is free.
pub fn enter_last(book: &[u8], index: &mut [u32], n: u32) -> bool
    requires { n < searched book.now }
    ensures { LastIs book.now index.old n result index.new }
{
    if n as usize <= index.len() / 3 {
        return false;
    }
    let at = free_slot(book, index, block::name(book, n));
    if index.len() <= at {
        return false;
    }
    index[at] = n + 1;
    true
}
