// The write. The call whose name ends in `_in` takes a book that was checked once.
ghost use Rattle.std.specs.Prelude.{◌≡◌, true, length};
ghost use Rattle.type_book.specs.Book.{is_type};
ghost use Rattle.type_book_check.specs.Check.{ValidBook};
ghost use Rattle.ser.specs.Write.{write_ctx};
ghost use Rattle.type_book_check.specs.Given.{name as by_name};
ghost use Rattle.ser.specs.Call.{book_write, write_call, given_write};
ghost use Rattle.gateway.specs.Calls.{WriteGiven};

use gateway_write_answers::give_write;

// Writes the tape over the image by the root's type: the output is the new bytes, or the image after a refusal.
#[unsafe(no_mangle)]
pub extern "C" fn gateway_write<'a>(
    buffer: &'a [u8],
    len: usize,
    width: u8,
    root: u64,
    image: &[u8],
    tape: &[u8],
    text: &'a [u8],
    output: &mut [u8],
    values: &mut [u64],
) -> u8
    ensures { WriteGiven (write_call buffer.now len width root image.now (length output.old) tape.now text.now) image.now output.old values.old result output.new values.new }
{
    give_write(
        ser::serializer::write(buffer, len, width, root, image, tape, text, output),
        values,
    )
}

// The same by the type of that name.
#[unsafe(no_mangle)]
pub extern "C" fn gateway_write_named<'a>(
    buffer: &'a [u8],
    len: usize,
    width: u8,
    name: &[u8],
    image: &[u8],
    tape: &[u8],
    text: &'a [u8],
    output: &mut [u8],
    values: &mut [u64],
) -> u8
    ensures { WriteGiven (given_write buffer.now len width (by_name name.now) image.now (length output.old) tape.now text.now) image.now output.old values.old result output.new values.new }
{
    give_write(
        ser::serializer::write_named(buffer, len, width, name, image, tape, text, output),
        values,
    )
}

#[unsafe(no_mangle)]
pub extern "C" fn gateway_write_in<'a>(
    book: &'a [u8],
    index: &[u32],
    width: u8,
    root: u32,
    image: &[u8],
    tape: &[u8],
    text: &'a [u8],
    output: &mut [u8],
    values: &mut [u64],
) -> u8
    requires { ValidBook book.now × (is_type book.now root ≡ true) }
    ensures { WriteGiven (book_write (write_ctx book.now width tape.now text.now) root (length output.old) image.now) image.now output.old values.old result output.new values.new }
{
    give_write(
        ser::serializer::write_in(book, index, width, root, image, tape, text, output),
        values,
    )
}
