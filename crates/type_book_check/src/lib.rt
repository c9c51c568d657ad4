// The check of a type book: refusals 1 to 5 of document 01 and 23, for all bytes. All of a refusal's tests come before all of the
// next one's, over the whole book.
#![tactic(auto)]

ghost use Rattle.std.specs.Prelude.{◌≡◌, true, ◌≤◌, ◌<◌, length};
ghost use Rattle.enc_number.specs.Answer.{refusal_of};
ghost use Rattle.type_book.specs.Book.{blocks as blocks_of, block_of};
ghost use Rattle.type_book_check.specs.Check.{size_right, sum_at, sums, place_of, misplaced_scan, scan_of, check_book, book_numbers, root_numbers, root_of, check_root};
ghost use Rattle.type_book_check.specs.Given.{name as by_name, is_root_name, given_root, given_numbers, check_given};

use type_block_form::{all_printable, entry_form, field_form, sum_right, type_form};
use type_book::block;
use type_book::block::BLOCK;
use type_doubles::distinct;
use type_provider::find;

// A valid book, or what it is refused for: 1 to 4 of document 01, in this order.
#[derive(Clone, Copy)]
pub enum BookCheck {
    Valid,
    Size,
    Sum,
    Form,
    Doubled,
}

// A root that is a type block of a valid book, or document 01's number of the refusal.
#[derive(Clone, Copy)]
pub enum RootCheck {
    Root(u32),
    Refused(u8),
}

// What a root that is given by its name stands for: its block, a name that the book lacks, or the number of the refusal.
#[derive(Clone, Copy)]
pub enum GivenRoot {
    Block(u32),
    Lacking,
    Refused(u8),
}

// The number that stands for a root's name which the book lacks. No book has so many blocks.
pub const LACKING_ROOT: u32 = 4294967295;

// ---- the whole book

fn block_at(book: &[u8], n: u32) -> &[u8]
    requires { n < blocks_of book.now }
    ensures { (result.now ≡ block_of book.now n) × (length result.now ≡ 512) }
{
    let from = n as usize * BLOCK;
    &book[from..from + BLOCK]
}

// The number of blocks, of which there are few enough.
fn count(book: &[u8]) -> u32
    requires { blocks_of book.now ≤ 65536 }
    ensures { result ≡ blocks_of book.now }
{
    block::blocks(book) as u32
}

// Every block holds its sum. Asked of a book with a block of a wrong form, since 2 comes before 3.
fn sums_right(book: &[u8]) -> bool
    requires { blocks_of book.now ≤ 65536 }
    ensures { result ≡ sums book.now }
{
    for i in 0..count(book) {
        if !sum_right(block_at(book, i)) {
            return false;
        }
    }
    true
}

// Holds block n, whose sum is right, against its place, and gives the fields and entries that are due after it. The two counts may be any
// u32: they are counted down, and never added.
fn due_after(book: &[u8], n: u32, fields: u32, entries: u32) -> Option<(u32, u32)>
    requires { (n < blocks_of book.now) × (sum_at book.now n ≡ true) }
    ensures { result ≡ place_of book.now n fields entries }
{
    let block = block_at(book, n);
    if fields > 0 {
        return field_form(block).then_some((fields - 1, entries));
    }
    if entries > 0 {
        return entry_form(block).then_some((0, entries - 1));
    }
    type_form(block).then_some((block::fields(book, n), block::entries(book, n)))
}

// The refusal of a book in which a block has not the form of its place.
#[tactic(auto, unfolding(crate::specs::Check::misplaced_scan))]
fn misplaced(book: &[u8]) -> BookCheck
    requires { blocks_of book.now ≤ 65536 }
    ensures { result ≡ misplaced_scan book.now }
{
    if sums_right(book) {
        BookCheck::Form
    } else {
        BookCheck::Sum
    }
}

// Sums and forms of all blocks, in one pass: a block's bytes are near when its form is tested.
fn scanned(book: &[u8]) -> BookCheck
    requires { blocks_of book.now ≤ 65536 }
    ensures { result ≡ scan_of book.now }
{
    let mut fields: u32 = 0;
    let mut entries: u32 = 0;
    for i in 0..count(book) {
        if !sum_right(block_at(book, i)) {
            return BookCheck::Sum;
        }
        let Some((f, e)) = due_after(book, i, fields, entries) else {
            return misplaced(book);
        };
        fields = f;
        entries = e;
    }
    if fields == 0 && entries == 0 {
        BookCheck::Valid
    } else {
        BookCheck::Form
    }
}

// ---- the calls

#[tactic(auto, unfolding(crate::specs::Check::size_right))]
fn size_right(room: usize, len: usize) -> bool
    ensures { result ≡ size_right room len }
{
    len <= room && len % BLOCK == 0 && len / BLOCK <= 65536
}

// Refusals 1 to 4 of the book that fills the first `len` bytes of a buffer.
pub fn check_book(buffer: &[u8], len: usize) -> BookCheck
    ensures { book_numbers result ≡ book_numbers (check_book buffer.now len) }
{
    // The marks are made before the first answer, so that every way through this function has its whole stack (docs/DECISIONS.md, "Stack
    // probes").
    let mut marks = [0u32; 32768];
    if !size_right(buffer.len(), len) {
        return BookCheck::Size;
    }
    let book = &buffer[..len];
    match scanned(book) {
        BookCheck::Valid => {
            if distinct(book, &mut marks) {
                BookCheck::Valid
            } else {
                BookCheck::Doubled
            }
        }
        refused => refused,
    }
}

// Document 01's number of a refusal, 0 for none.
#[tactic(auto, unfolding(crate::specs::Check::book_numbers))]
pub fn refusal_of(check: BookCheck) -> u8
    ensures { result ≡ refusal_of (book_numbers check) }
{
    match check {
        BookCheck::Valid => 0,
        BookCheck::Size => 1,
        BookCheck::Sum => 2,
        BookCheck::Form => 3,
        BookCheck::Doubled => 4,
    }
}

#[tactic(auto, unfolding(crate::specs::Check::root_of))]
fn root_of(book: &[u8], root: u64) -> RootCheck
    requires { blocks_of book.now ≤ 65536 }
    ensures { result ≡ root_of book.now root }
{
    if root < block::blocks(book) as u64 && block::is_type(book, root as u32) {
        return RootCheck::Root(root as u32);
    }
    RootCheck::Refused(5)
}

// Refusals 1 to 5 of a book and a root, which may be any number.
pub fn check_root(buffer: &[u8], len: usize, root: u64) -> RootCheck
    ensures { root_numbers result ≡ root_numbers (check_root buffer.now len root) }
{
    let refusal = refusal_of(check_book(buffer, len));
    if refusal != 0 {
        return RootCheck::Refused(refusal);
    }
    root_of(&buffer[..len], root)
}

// A root's name has 0 to 200 bytes, each of which may stand in a name.
#[tactic(auto, unfolding(crate::specs::Given::is_root_name))]
fn is_root_name(name: &[u8]) -> bool
    ensures { result ≡ is_root_name name.now }
{
    name.len() <= 200 && all_printable(name)
}

fn named_root(book: &[u8], name: &[u8]) -> GivenRoot
    ensures { result ≡ given_root book.now (by_name name.now) }
{
    if !is_root_name(name) {
        return GivenRoot::Refused(23);
    }
    match find(book, name) {
        Some(n) => GivenRoot::Block(n),
        None => GivenRoot::Lacking,
    }
}

// Refusals 1 to 4 of a book and 23 of a root's name, which may be any bytes; else its block, or that the book lacks it.
pub fn check_root_named(buffer: &[u8], len: usize, name: &[u8]) -> GivenRoot
    ensures { given_numbers result ≡ given_numbers (check_given buffer.now len (by_name name.now)) }
{
    let refusal = refusal_of(check_book(buffer, len));
    if refusal != 0 {
        return GivenRoot::Refused(refusal);
    }
    named_root(&buffer[..len], name)
}
