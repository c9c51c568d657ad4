// The look-up of a type by its name (the Rust's `TypeProvider::get_type_info`): a search of the whole book.
#![tactic(auto)]

ghost use Rattle.std.specs.Prelude.{◌≡◌};
ghost use Rattle.type_book.specs.Book.{is_named};
ghost use Rattle.type_provider.specs.Find.{searched as searched_of, find as find_in, found_numbers};

use type_book::block;

// A book of more blocks is refused before any look-up.
const MAX_BLOCKS: usize = 65536;

// The number of blocks that a look-up searches.
pub fn searched(book: &[u8]) -> u32
    ensures { result ≡ searched_of book.now }
{
    block::blocks(book).min(MAX_BLOCKS) as u32
}

// Whether block n is a type block of that name.
#[tactic(auto, unfolding(type_book::specs::Book::is_named))]
pub fn is_named(book: &[u8], name: &[u8], n: u32) -> bool
    ensures { result ≡ is_named book.now name.now n }
{
    block::is_type(book, n) && block::same_name(block::name(book, n), name)
}

// The first type block of that name.
pub fn find(book: &[u8], name: &[u8]) -> Option<u32>
    ensures { found_numbers result ≡ found_numbers (find_in book.now name.now) }
{
    let n = searched(book);
    for i in 0..n {
        if is_named(book, name, i) {
            return Some(i);
        }
    }
    None
}
