// The two walks of the types that a type is made of. The calls whose names end in `_in` take a book that was checked once. An index may hold
// any numbers.
ghost use Rattle.std.specs.Prelude.{◌≡◌, true, ◌&&◌};
ghost use Rattle.type_book.specs.Book.{is_type};
ghost use Rattle.type_book_check.specs.Check.{ValidBook};
ghost use Rattle.resolve_walk.specs.Scratch.{scratch_fits, list_fits};
ghost use Rattle.gateway.specs.Calls.{RmwGiven, RmwNamedGiven, RmwInGiven, MissingGiven, MissingNamedGiven, MissingInGiven};

use gateway_walk_answers::{give_missing, give_rmw};
use resolve_read_modify_write::requires_read_modify_write_named;

// 1 where a value's memory must be read before it is written, else 0.
#[unsafe(no_mangle)]
pub extern "C" fn gateway_requires_read_modify_write(
    buffer: &[u8],
    len: usize,
    index: &[u32],
    width: u8,
    root: u64,
    scratch: &mut [u32],
    values: &mut [u64],
) -> u8
    ensures { RmwGiven buffer.now len index.now width root scratch.old values.old result scratch.new values.new }
{
    give_rmw(
        resolve_read_modify_write::requires_read_modify_write(
            buffer, len, index, width, root, scratch,
        ),
        values,
    )
}

// The same for a root that is given by its name.
#[unsafe(no_mangle)]
pub extern "C" fn gateway_requires_read_modify_write_named(
    buffer: &[u8],
    len: usize,
    index: &[u32],
    width: u8,
    name: &[u8],
    scratch: &mut [u32],
    values: &mut [u64],
) -> u8
    ensures { RmwNamedGiven buffer.now len index.now width name.now scratch.old values.old result scratch.new values.new }
{
    give_rmw(
        requires_read_modify_write_named(buffer, len, index, width, name, scratch),
        values,
    )
}

#[unsafe(no_mangle)]
pub extern "C" fn gateway_requires_read_modify_write_in(
    book: &[u8],
    index: &[u32],
    width: u8,
    root: u32,
    scratch: &mut [u32],
    values: &mut [u64],
) -> u8
    requires { ValidBook book.now × (is_type book.now root ≡ true) }
    ensures { RmwInGiven (scratch_fits scratch.old) book.now width root scratch.old values.old result scratch.new values.new }
{
    give_rmw(
        gateway_once_checked::rmw_in(book, index, width, root, scratch),
        values,
    )
}

// How many blocks are listed, 1 where the walk is whole, else 0, and how many names were met.
#[unsafe(no_mangle)]
pub extern "C" fn gateway_missing_types(
    buffer: &[u8],
    len: usize,
    index: &[u32],
    width: u8,
    root: u64,
    scratch: &mut [u32],
    list: &mut [u32],
    values: &mut [u64],
) -> u8
    ensures { MissingGiven buffer.now len index.now width root scratch.old list.old values.old result scratch.new list.new values.new }
{
    give_missing(
        resolve_missing_types::missing_types(buffer, len, index, width, root, scratch, list),
        values,
    )
}

// The same for a root that is given by its name.
#[unsafe(no_mangle)]
pub extern "C" fn gateway_missing_types_named(
    buffer: &[u8],
    len: usize,
    index: &[u32],
    width: u8,
    name: &[u8],
    scratch: &mut [u32],
    list: &mut [u32],
    values: &mut [u64],
) -> u8
    ensures { MissingNamedGiven buffer.now len index.now width name.now scratch.old list.old values.old result scratch.new list.new values.new }
{
    give_missing(
        resolve_missing_types::missing_types_named(buffer, len, index, width, name, scratch, list),
        values,
    )
}

#[unsafe(no_mangle)]
pub extern "C" fn gateway_missing_types_in(
    book: &[u8],
    index: &[u32],
    width: u8,
    root: u32,
    scratch: &mut [u32],
    list: &mut [u32],
    values: &mut [u64],
) -> u8
    requires { ValidBook book.now × (is_type book.now root ≡ true) }
    ensures { MissingInGiven (scratch_fits scratch.old && list_fits list.old) book.now width root scratch.old list.old values.old result scratch.new list.new values.new }
{
    give_missing(
        gateway_once_checked::missing_in(book, index, width, root, scratch, list),
        values,
    )
}
