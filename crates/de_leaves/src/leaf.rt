// What a type's bytes stand for, where it is neither struct nor array (deserializer.rs).
ghost use Rattle.std.specs.Prelude.{◌≡◌, ◌+◌, ◌<◌};
ghost use Rattle.type_book.specs.Book.{fields_of, entries_of};
ghost use Rattle.de_leaves.specs.Leaf.{leaf_numbers, kind_of_leaf, bool_leaf, real_leaf, integer_leaf, number_leaf, pointer_leaf, decoder_of, text_leaf, unlisted, enum_leaf, leaf_by};

use crate::enum_access::find_entry;
use enc_float::{Real, RealRead, real_from_le_slice};
use enc_integer::{Integer, IntegerRead, try_from_le_slice};
use enc_text_decoder::{Decoder, text_end};
use enc_utf_8::TextEnd;
use time_types::count_width;
use type_category::type_category::AdsTypeCategory;
use type_id::AdsTypeId;
use validators::{Validity, validate_exact_size};

// A real has cases of its own; a NaN's keeps its bits.
#[derive(Clone, Copy)]
pub enum LeafValue {
    // Width in bytes, and the two's complement of 64 bits.
    Signed(u8, u64),
    Unsigned(u8, u64),
    Bool(bool),
    Single(f32),
    Double(f64),
    NanSingle(u32),
    NanDouble(u64),
    // A STRING or WSTRING: its decoder, and what the search for its end told.
    Text(Decoder, TextEnd),
    // An enum entry's block.
    Entry(u32),
    Unit,
    // Document 01's number.
    Refused(u8),
}

// How a leaf is read.
#[derive(Clone, Copy)]
pub enum LeafKind {
    Number,
    Text,
    Enum,
    Pointer,
    Unit,
    None,
}

fn kind_of(category: AdsTypeCategory) -> LeafKind
    ensures { result ≡ kind_of_leaf category }
{
    match category {
        AdsTypeCategory::None => LeafKind::Unit,
        AdsTypeCategory::Primitive | AdsTypeCategory::SubRange | AdsTypeCategory::Bitset =>
            LeafKind::Number,
        AdsTypeCategory::String => LeafKind::Text,
        AdsTypeCategory::Enum => LeafKind::Enum,
        AdsTypeCategory::Pointer | AdsTypeCategory::Reference | AdsTypeCategory::Interface =>
            LeafKind::Pointer,
        _ => LeafKind::None,
    }
}

// One byte: anything but 0 is true.
fn bool_leaf(bytes: &[u8]) -> LeafValue
    ensures { result ≡ bool_leaf bytes.now }
{
    let Validity::Valid = validate_exact_size(bytes, 1) else {
        return LeafValue::Refused(10);
    };
    LeafValue::Bool(bytes[0] != 0)
}

fn real_leaf(value: Real) -> LeafValue
    ensures { result ≡ real_leaf value }
{
    match value {
        Real::Single(x) => LeafValue::Single(x),
        Real::Double(x) => LeafValue::Double(x),
        Real::NanSingle(n) => LeafValue::NanSingle(n),
        Real::NanDouble(n) => LeafValue::NanDouble(n),
    }
}

fn integer_leaf(read: IntegerRead) -> LeafValue
    ensures { result ≡ integer_leaf read }
{
    match read {
        IntegerRead::Value(v) => match v {
            Integer::Signed(w, b) => LeafValue::Signed(w, b),
            Integer::Unsigned(w, n) => LeafValue::Unsigned(w, n),
        },
        IntegerRead::Size => LeafValue::Refused(10),
        IntegerRead::Unsupported => LeafValue::Refused(11),
    }
}

// A number or a bool, by the type's id alone.
fn number_leaf(book: &[u8], t: u32, bytes: &[u8]) -> LeafValue
    ensures { result ≡ number_leaf book.now t bytes.now }
{
    let id = type_book::block::type_id(book, t);
    if id.to_u32() == 33 {
        return bool_leaf(bytes);
    }
    match real_from_le_slice(bytes, id) {
        RealRead::Value(v) => real_leaf(v),
        RealRead::Size => LeafValue::Refused(10),
        RealRead::Unsupported => integer_leaf(try_from_le_slice(bytes, id)),
    }
}

// A pointer, reference or interface: an unsigned number of the pointer width. A count of time is one of a width of its own.
fn pointer_leaf(width: u8, bytes: &[u8]) -> LeafValue
    ensures { result ≡ pointer_leaf width bytes.now }
{
    match width {
        2 => integer_leaf(try_from_le_slice(bytes, AdsTypeId::UInt16)),
        4 => integer_leaf(try_from_le_slice(bytes, AdsTypeId::UInt32)),
        8 => integer_leaf(try_from_le_slice(bytes, AdsTypeId::UInt64)),
        _ => LeafValue::Refused(13),
    }
}

// A WSTRING is UTF-16, a STRING is UTF-8 where its own block is marked so, else Windows-1252.
fn decoder_of(book: &[u8], t: u32) -> Decoder
    ensures { result ≡ decoder_of book.now t }
{
    if type_book::block::type_id(book, t).to_u32() == 31 {
        return Decoder::Utf16;
    }
    if type_book::block::is_utf_8(book, t) {
        return Decoder::Utf8;
    }
    Decoder::Windows1252
}

// A STRING or WSTRING up to its terminator.
fn text_leaf(book: &[u8], t: u32, bytes: &[u8]) -> LeafValue
    ensures { result ≡ text_leaf book.now t bytes.now }
{
    let size = type_book::block::size(book, t) as usize;
    let Validity::Valid = validate_exact_size(bytes, size) else {
        return LeafValue::Refused(10);
    };
    let decoder = decoder_of(book, t);
    let end = text_end(decoder, bytes);
    LeafValue::Text(decoder, end)
}

// An enum's bytes that no entry has.
fn unlisted_leaf(read: IntegerRead) -> LeafValue
    ensures { result ≡ unlisted read }
{
    match read {
        IntegerRead::Value(_) => LeafValue::Refused(12),
        IntegerRead::Size => LeafValue::Refused(10),
        IntegerRead::Unsupported => LeafValue::Refused(11),
    }
}

// The first entry whose value is the bytes.
fn enum_leaf(book: &[u8], t: u32, bytes: &[u8]) -> LeafValue
    requires { t + fields_of book.now t + entries_of book.now t < 65536 }
    ensures { result ≡ enum_leaf book.now t bytes.now }
{
    let size = type_book::block::size(book, t) as usize;
    let Validity::Valid = validate_exact_size(bytes, size) else {
        return LeafValue::Refused(10);
    };
    let first = t + 1 + type_book::block::fields(book, t);
    let found = find_entry(book, bytes, first, type_book::block::entries(book, t));
    match found {
        Some(n) => LeafValue::Entry(n),
        None => unlisted_leaf(try_from_le_slice(bytes, type_book::block::type_id(book, t))),
    }
}

// The value of resolved type t in `bytes`, where t's category is known.
pub fn leaf_by(book: &[u8], width: u8, t: u32, category: AdsTypeCategory, bytes: &[u8]) -> LeafValue
    requires { t + fields_of book.now t + entries_of book.now t < 65536 }
    ensures { leaf_numbers result ≡ leaf_numbers (leaf_by book.now width t category bytes.now) }
{
    let count = count_width(book, t, category);
    if count != 0 {
        return pointer_leaf(count, bytes);
    }
    match kind_of(category) {
        LeafKind::Number => number_leaf(book, t, bytes),
        LeafKind::Text => text_leaf(book, t, bytes),
        LeafKind::Enum => enum_leaf(book, t, bytes),
        LeafKind::Pointer => pointer_leaf(width, bytes),
        LeafKind::Unit => LeafValue::Unit,
        LeafKind::None => LeafValue::Refused(11),
    }
}
