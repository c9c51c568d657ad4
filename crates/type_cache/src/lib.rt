// Appending one type's blocks to a type book in a lent buffer (the Rust's `insert` of type_cache.rs). The book and the
// addition are tested before the first byte is written, so a refusal leaves the buffer as it was.
#![tactic(auto)]

ghost use Rattle.std.specs.Prelude.{◌≡◌, ◌+◌, ◌≤◌, length};
ghost use Rattle.type_cache.specs.Append.{is_one_type, addition_refusal, is_known, has_room, CopyIs, AppendIs};

use type_book::block;
use type_book::block::BLOCK;
use type_book_check::{BookCheck, check_book, refusal_of};
use type_provider::find;

// The book's new length, or document 01's number of the refusal.
#[derive(Clone, Copy)]
pub enum Appended {
    Done(usize),
    Refused(u8),
}

// The first type, with its fields and entries, is all there is.
fn is_one_type(addition: &[u8]) -> bool
    ensures { result ≡ is_one_type addition.now }
{
    let fields = block::fields(addition, 0) as usize;
    let entries = block::entries(addition, 0) as usize;
    fields + entries + 1 == block::blocks(addition)
}

// Document 01's number of a refusal of the addition, which is tested as a book is. Two types of one name are more than
// one type, so they are 3 and not 4.
#[tactic(auto, unfolding(crate::specs::Append::addition_check, type_book_check::specs::Check::book_numbers))]
pub fn addition_refusal(addition: &[u8]) -> u8
    ensures { result ≡ addition_refusal addition.now }
{
    match check_book(addition, addition.len()) {
        BookCheck::Valid => { if is_one_type(addition) { 0 } else { 3 } }
        BookCheck::Size => 1,
        BookCheck::Sum => 2,
        BookCheck::Form | BookCheck::Doubled => 3,
    }
}

// The book has a type of that name, whatever its definition.
fn is_known(book: &[u8], name: &[u8]) -> bool
    ensures { result ≡ is_known book.now name.now }
{
    matches!(find(book, name), Some(_))
}

// The longer book fits the buffer, and has at most 65,536 blocks.
#[tactic(auto, unfolding(crate::specs::Append::has_room))]
pub fn has_room(room: usize, len: usize, more: usize) -> bool
    ensures { result ≡ has_room room len more }
{
    len <= room && more <= room - len && (len + more) / BLOCK <= 65536
}

// Writes the addition after the first `len` bytes, and gives the length of both.
pub fn copy(buffer: &mut [u8], len: usize, addition: &[u8]) -> usize
    requires { len + length addition.now ≤ length buffer.old }
    ensures { CopyIs buffer.old len addition.now result buffer.new }
{
    // `copy_from_slice` calls memmove, which the archive for C would then need from outside.
    for i in 0..addition.len() {
        buffer[len + i] = addition[i];
    }
    len + addition.len()
}

// Appends one whole type to the book that fills the first `len` bytes of the buffer. The first refusal is answered: the book's, the
// addition's, a known name (4), no room (15).
pub fn append(buffer: &mut [u8], len: usize, addition: &[u8]) -> Appended
    ensures { AppendIs buffer.old len addition.now result buffer.new }
{
    let of_book = refusal_of(check_book(buffer, len));
    if of_book != 0 {
        return Appended::Refused(of_book);
    }
    let of_addition = addition_refusal(addition);
    if of_addition != 0 {
        return Appended::Refused(of_addition);
    }
    if is_known(&buffer[..len], block::name(addition, 0)) {
        return Appended::Refused(4);
    }
    if !has_room(buffer.len(), len, addition.len()) {
        return Appended::Refused(15);
    }
    Appended::Done(copy(buffer, len, addition))
}
