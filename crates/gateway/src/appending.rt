// Appending to a book that was checked once, as while it is completed type by type.
ghost use Rattle.std.specs.Prelude.{◌≡◌, take};
ghost use Rattle.enc_number.specs.Answer.{truth_number};
ghost use Rattle.type_index.specs.Trust.{holds_all, Trusted};
ghost use Rattle.type_book_check.specs.declared.BookCheck.TheVariants.{Valid};
ghost use Rattle.type_book_check.specs.Check.{check_book};
ghost use Rattle.gateway_appending.specs.Growth.{trust_of};
ghost use Rattle.gateway.specs.Calls.{AppendInGiven};

use gateway_appending::{append_in, give_growth};

// 1 where the index leads to every type of the book, else 0.
#[unsafe(no_mangle)]
pub extern "C" fn gateway_index_holds(book: &[u8], index: &[u32]) -> u8
    ensures { result ≡ truth_number (holds_all book.now index.now) }
{
    gateway_codes::truth(type_index::holds_all(book, index))
}

// Appends one whole type to the checked book in the first `len` bytes of the buffer: the new length, and 1 where the index, with the new
// type in it, leads to every type of the longer book. The longer book is valid, so that the next type can be appended in the same way.
// `held` is 1 only where the index leads to every type of the book.
#[unsafe(no_mangle)]
pub extern "C" fn gateway_append_in(
    buffer: &mut [u8],
    len: usize,
    piece: &[u8],
    index: &mut [u32],
    held: u8,
    values: &mut [u64],
) -> u8
    requires { (check_book buffer.old len ≡ Valid) × Trusted (take len buffer.old) index.old (trust_of held) }
    ensures { AppendInGiven buffer.old len piece.now index.old held values.old result buffer.new index.new values.new }
{
    give_growth(append_in(buffer, len, piece, index, held), values)
}
