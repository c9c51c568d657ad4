// The call that builds an index of the names of a book's types into a lent buffer, once the book has passed its checks. The two type walks
// take such an index, so that they look names up without a search of the book.
#![tactic(auto)]

ghost use Rattle.std.specs.Prelude.{◌≡◌};
ghost use Rattle.enc_number.specs.Answer.{refusal_of};
ghost use Rattle.type_index_build.specs.Build.{built_numbers, BuiltIs, BuiltIn};

use type_book_check::{check_book, refusal_of};
use type_index::{fill_names, index_fits};

// What `build_index` answers.
#[derive(Clone, Copy)]
pub enum Built {
    Done,
    // A refusal, by document 01's number.
    Refused(u8),
}

// Document 01's number of the answer, 0 for none.
#[tactic(auto, unfolding(crate::specs::Build::built_numbers))]
pub fn refusal_of_built(built: Built) -> u8
    ensures { result ≡ refusal_of (built_numbers built) }
{
    match built {
        Built::Done => 0,
        Built::Refused(n) => n,
    }
}

// The index of a valid book: 6 where the buffer is too short.
#[tactic(auto, unfolding(crate::specs::Build::built_in, crate::specs::Build::built_index))]
fn build_in(book: &[u8], index: &mut [u32]) -> Built
    ensures { BuiltIn book.now index.old result index.new }
{
    if !index_fits(index) {
        return Built::Refused(6);
    }
    fill_names(book, index);
    Built::Done
}

// Builds an index of the names of the book's types into the whole buffer. The book fills the first `len` bytes of its own buffer.
pub fn build_index(buffer: &[u8], len: usize, index: &mut [u32]) -> Built
    ensures { BuiltIs buffer.now len index.old result index.new }
{
    let refusal = refusal_of(check_book(buffer, len));
    if refusal != 0 {
        return Built::Refused(refusal);
    }
    build_in(&buffer[..len], index)
}
