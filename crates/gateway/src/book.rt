// What the blocks of a book say, and appending a type to it.
ghost use Rattle.std.specs.Prelude.{◌≡◌, ◌+◌, ◌*◌};
ghost use Rattle.type_book.specs.Book.{is_type, name_of, type_name_of};
ghost use Rattle.type_category.specs.Category.{category_of};
ghost use Rattle.type_category.specs.Number.{category_numbers};
ghost use Rattle.enc_number.specs.Answer.{truth_number};
ghost use Rattle.gateway_lent_values.specs.Values.{Gives};
ghost use Rattle.gateway_book_answers.specs.Answers.{PartGiven};
ghost use Rattle.gateway.specs.Calls.{AppendGiven};

use gateway_book_answers::{give_appended, give_name, give_type_name};
use gateway_lent_values::done_1;
use type_category::type_category::AdsTypeCategory;
use type_category_number::number;

// 1 where the block is a type block, else 0.
#[unsafe(no_mangle)]
pub extern "C" fn gateway_is_type(book: &[u8], block: u32) -> u8
    ensures { result ≡ truth_number (is_type book.now block) }
{
    gateway_codes::truth(type_book::block::is_type(book, block))
}

// The name's offset in the book and its length.
#[unsafe(no_mangle)]
pub extern "C" fn gateway_name(book: &[u8], block: u32, values: &mut [u64]) -> u8
    ensures { PartGiven book.now (name_of book.now block) (block * 512 + 54) values.old result values.new }
{
    give_name(book, block, values)
}

// The type name's offset in the book and its length.
#[unsafe(no_mangle)]
pub extern "C" fn gateway_type_name(book: &[u8], block: u32, values: &mut [u64]) -> u8
    ensures { PartGiven book.now (type_name_of book.now block) (block * 512 + 254) values.old result values.new }
{
    give_type_name(book, block, values)
}

// The number of the block's category.
#[unsafe(no_mangle)]
pub extern "C" fn gateway_determine(book: &[u8], width: u8, block: u32, values: &mut [u64]) -> u8
    ensures { Gives (category_numbers (category_of book.now width block)) values.old result values.new }
{
    done_1(
        values,
        number(AdsTypeCategory::determine(book, width, block)) as u64,
    )
}

// Appends one whole type to the book in the first `len` bytes of the buffer: the new length.
#[unsafe(no_mangle)]
pub extern "C" fn gateway_append(
    buffer: &mut [u8],
    len: usize,
    piece: &[u8],
    values: &mut [u64],
) -> u8
    ensures { AppendGiven buffer.old len piece.now values.old result buffer.new values.new }
{
    give_appended(type_cache::append(buffer, len, piece), values)
}
