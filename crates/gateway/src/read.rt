// The read. The call whose name ends in `_in` takes a book that was checked once.
ghost use Rattle.std.specs.Prelude.{◌≡◌, true};
ghost use Rattle.type_book.specs.Book.{is_type};
ghost use Rattle.type_book_check.specs.Check.{ValidBook};
ghost use Rattle.de.specs.Walk.{ctx};
ghost use Rattle.type_book_check.specs.Given.{name as by_name};
ghost use Rattle.de.specs.Read.{root_trace, read_trace, given_trace};
ghost use Rattle.gateway.specs.Calls.{ReadGiven};

use gateway_read_answers::give_read;

// Reads the memory by the root's type: how many records and text bytes.
#[unsafe(no_mangle)]
pub extern "C" fn gateway_read(
    buffer: &[u8],
    len: usize,
    width: u8,
    root: u64,
    memory: &[u8],
    tape: &mut [u8],
    text: &mut [u8],
    values: &mut [u64],
) -> u8
    ensures { ReadGiven (read_trace buffer.now len width root memory.now) tape.old text.old values.old result tape.new text.new values.new }
{
    give_read(
        de::deserializer::read(buffer, len, width, root, memory, tape, text),
        values,
    )
}

// The same by the type of that name.
#[unsafe(no_mangle)]
pub extern "C" fn gateway_read_named(
    buffer: &[u8],
    len: usize,
    width: u8,
    name: &[u8],
    memory: &[u8],
    tape: &mut [u8],
    text: &mut [u8],
    values: &mut [u64],
) -> u8
    ensures { ReadGiven (given_trace buffer.now len width (by_name name.now) memory.now) tape.old text.old values.old result tape.new text.new values.new }
{
    give_read(
        de::deserializer::read_named(buffer, len, width, name, memory, tape, text),
        values,
    )
}

#[unsafe(no_mangle)]
pub extern "C" fn gateway_read_in(
    book: &[u8],
    index: &[u32],
    width: u8,
    root: u32,
    memory: &[u8],
    tape: &mut [u8],
    text: &mut [u8],
    values: &mut [u64],
) -> u8
    requires { ValidBook book.now × (is_type book.now root ≡ true) }
    ensures { ReadGiven (root_trace (ctx book.now width) root memory.now) tape.old text.old values.old result tape.new text.new values.new }
{
    give_read(
        de::deserializer::read_in(book, index, width, root, memory, tape, text),
        values,
    )
}
