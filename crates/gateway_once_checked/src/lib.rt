// The two walks for a book that was checked once, where scratch and list are lent: 6 is answered, not required.
#![tactic(auto)]

ghost use Rattle.std.specs.Prelude.{◌≡◌, true, ◌&&◌};
ghost use Rattle.type_book.specs.Book.{is_type};
ghost use Rattle.type_book_check.specs.Check.{ValidBook};
ghost use Rattle.resolve_walk.specs.Scratch.{scratch_fits, list_fits};
ghost use Rattle.resolve_missing_types.specs.Calls.{MissingIn};
ghost use Rattle.resolve_read_modify_write.specs.Calls.{RmwIn};

use resolve_missing_types::Missing;
use resolve_read_modify_write::Rmw;
use resolve_walk::{list_fits, scratch_fits};

// 6 for a short scratch, then the walk.
pub fn rmw_in(book: &[u8], index: &[u32], width: u8, root: u32, scratch: &mut [u32]) -> Rmw
    requires { ValidBook book.now × (is_type book.now root ≡ true) }
    ensures { RmwIn (scratch_fits scratch.old) book.now width root scratch.old result scratch.new }
{
    if !scratch_fits(scratch) {
        return Rmw::Refused(6);
    }
    resolve_read_modify_write::requires_read_modify_write_in(book, index, width, root, scratch)
}

// 6 for a short scratch or a short list, then the walk.
pub fn missing_in(
    book: &[u8],
    index: &[u32],
    width: u8,
    root: u32,
    scratch: &mut [u32],
    list: &mut [u32],
) -> Missing
    requires { ValidBook book.now × (is_type book.now root ≡ true) }
    ensures { MissingIn (scratch_fits scratch.old && list_fits list.old) book.now width root scratch.old list.old result scratch.new list.new }
{
    if !scratch_fits(scratch) {
        return Missing::Refused(6);
    }
    if !list_fits(list) {
        return Missing::Refused(6);
    }
    resolve_missing_types::missing_types_in(book, index, width, root, scratch, list)
}
