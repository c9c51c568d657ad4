// What the blocks of a type book say. A block is 512 bytes; document 01, "The type book", has its layout.
// Every function takes any bytes and any block number: past the end a byte is 0 and a part is empty.
ghost use Rattle.std.specs.Prelude.{◌≡◌, ◌+◌, ◌*◌, ◌/◌, ◌%◌, ◌≤◌, ◌<◌, length, take, drop, eqb};
ghost use Rattle.type_id.specs.TypeId.{id_of};
ghost use Rattle.type_book.specs.Book.{blocks as blocks_of, byte_at, u32_at, kind_of, is_type, flag_of, dimensions_of, type_id_of, offset_of, size_of, fields_of, entries_of, count_of, value_of, name_of, type_name_of, same_name};

use enc_number::le::{le_u32, le_value};
use type_id::AdsTypeId;

pub const BLOCK: usize = 512;

// The number of whole blocks.
pub fn blocks(book: &[u8]) -> usize
    ensures { result ≡ blocks_of book.now }
{
    book.len() / BLOCK
}

// What follows the first k bytes.
fn after(s: &[u8], k: usize) -> &[u8]
    ensures { result.now ≡ drop k s.now }
{
    &s[k.min(s.len())..]
}

// The book from byte k of block n on: in two steps, since k may be any number and the sum could wrap.
fn tail(book: &[u8], n: u32, k: usize) -> &[u8]
    ensures { result.now ≡ drop (n * 512 + k) book.now }
{
    after(after(book, n as usize * BLOCK), k)
}

// Byte k of block n.
pub fn byte_at(book: &[u8], n: u32, k: usize) -> u8
    ensures { result ≡ byte_at book.now n k }
{
    match tail(book, n, k) {
        [byte, ..] => *byte,
        [] => 0,
    }
}

// The little-endian number in four bytes, from byte k of block n on.
pub fn u32_at(book: &[u8], n: u32, k: usize) -> u32
    ensures { result ≡ u32_at book.now n k }
{
    le_u32(tail(book, n, k))
}

// As many bytes as byte c of block n says, from byte k on.
fn counted(book: &[u8], n: u32, c: usize, k: usize) -> &[u8]
    ensures { result.now ≡ take (byte_at book.now n c) (drop (n * 512 + k) book.now) }
{
    let len = byte_at(book, n, c) as usize;
    let rest = tail(book, n, k);
    &rest[..len.min(rest.len())]
}

// Whether a bit of a type's byte 1 is set, by the bit's value.
fn has_flag(book: &[u8], n: u32, unit: u8) -> bool
    requires { 0 < unit }
    ensures { result ≡ eqb (byte_at book.now n 1 / unit % 2) 1 }
{
    byte_at(book, n, 1) / unit % 2 == 1
}

// 1 a type, 2 a field, 3 an enum entry.
pub fn kind(book: &[u8], n: u32) -> u8
    ensures { result ≡ kind_of book.now n }
{
    byte_at(book, n, 0)
}

pub fn is_type(book: &[u8], n: u32) -> bool
    ensures { result ≡ is_type book.now n }
{
    kind(book, n) == 1
}

pub fn is_pointer(book: &[u8], n: u32) -> bool
    ensures { result ≡ flag_of book.now n 0 }
{
    has_flag(book, n, 1)
}

pub fn is_reference(book: &[u8], n: u32) -> bool
    ensures { result ≡ flag_of book.now n 1 }
{
    has_flag(book, n, 2)
}

pub fn is_enum(book: &[u8], n: u32) -> bool
    ensures { result ≡ flag_of book.now n 2 }
{
    has_flag(book, n, 4)
}

pub fn has_methods(book: &[u8], n: u32) -> bool
    ensures { result ≡ flag_of book.now n 3 }
{
    has_flag(book, n, 8)
}

pub fn has_tc_implements(book: &[u8], n: u32) -> bool
    ensures { result ≡ flag_of book.now n 4 }
{
    has_flag(book, n, 16)
}

// Whether a STRING is marked as UTF-8.
pub fn is_utf_8(book: &[u8], n: u32) -> bool
    ensures { result ≡ flag_of book.now n 5 }
{
    has_flag(book, n, 32)
}

pub fn dimensions(book: &[u8], n: u32) -> u8
    ensures { result ≡ dimensions_of book.now n }
{
    byte_at(book, n, 2)
}

pub fn type_id(book: &[u8], n: u32) -> AdsTypeId
    ensures { result ≡ id_of (type_id_of book.now n) }
{
    AdsTypeId::from_u32(u32_at(book, n, 4))
}

// A field's offset in its type.
pub fn offset(book: &[u8], n: u32) -> u32
    ensures { result ≡ offset_of book.now n }
{
    u32_at(book, n, 4)
}

pub fn size(book: &[u8], n: u32) -> u32
    ensures { result ≡ size_of book.now n }
{
    u32_at(book, n, 8)
}

// The number of field blocks after a type block.
pub fn fields(book: &[u8], n: u32) -> u32
    ensures { result ≡ fields_of book.now n }
{
    u32_at(book, n, 12)
}

// The number of entry blocks after the field blocks.
pub fn entries(book: &[u8], n: u32) -> u32
    ensures { result ≡ entries_of book.now n }
{
    u32_at(book, n, 16)
}

// The count of elements of dimension i, from 0 on.
pub fn count(book: &[u8], n: u32, i: u8) -> u32
    ensures { result ≡ count_of book.now n i }
{
    u32_at(book, n, 20 + 4 * (i as usize))
}

// The bytes of an entry's value.
pub fn value(book: &[u8], n: u32) -> &[u8]
    ensures { result.now ≡ value_of book.now n }
{
    counted(book, n, 1, 20)
}

// The name, as the part of the book that it fills.
pub fn name(book: &[u8], n: u32) -> &[u8]
    ensures { result.now ≡ name_of book.now n }
{
    counted(book, n, 52, 54)
}

// The type name, as the part of the book that it fills.
pub fn type_name(book: &[u8], n: u32) -> &[u8]
    ensures { result.now ≡ type_name_of book.now n }
{
    counted(book, n, 53, 254)
}

// Whether two short names of one length are the same bytes.
fn same_bytes(a: &[u8], b: &[u8]) -> bool
    requires { length a.now ≡ length b.now }
    ensures { result ≡ same_name a.now b.now }
{
    for i in 0..a.len() {
        if a[i] != b[i] {
            return false;
        }
    }
    true
}

// Whether the W bytes from place i on are the same, compared as one number. The parts have W bytes and no more, so that each is one load.
fn same_part<const W: usize>(a: &[u8], b: &[u8], i: usize) -> bool
    requires { (W ≤ 8) × (i + W ≤ length a.now) × (i + W ≤ length b.now) }
    ensures { result ≡ same_name (take W (drop i a.now)) (take W (drop i b.now)) }
{
    le_value(&a[i..i + W]) == le_value(&b[i..i + W])
}

// Whether two names are the same bytes. Those of four bytes or more are compared by four or by eight bytes, of which the last may overlap
// those before. `==` would call a function.
pub fn same_name(a: &[u8], b: &[u8]) -> bool
    ensures { result ≡ same_name a.now b.now }
{
    let n = a.len();
    if n != b.len() {
        return false;
    }
    if n < 4 {
        return same_bytes(a, b);
    }
    if n < 8 {
        return same_part::<4>(a, b, 0) && same_part::<4>(a, b, n - 4);
    }
    let last = n - 8;
    for i in (0..last).step_by(8) {
        if !same_part::<8>(a, b, i) {
            return false;
        }
    }
    same_part::<8>(a, b, last)
}
