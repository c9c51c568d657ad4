// The record of a number by its type's id, in few steps, since most leaves are numbers. It is made of plain numbers and not of an enum, which one
// function would store in parts and the next load at once. A record of kind 0, which no value has, says nothing: such a leaf is read by `leaf`.
ghost use Rattle.std.specs.Prelude.{◌≡◌, ◌<◌};
ghost use Rattle.tape.specs.Record.{new_record};
ghost use Rattle.enc_integer.specs.Integer.{read_integer};
ghost use Rattle.de_leaves.specs.Leaf.{kind_of_leaf, bool_leaf, integer_leaf, number_leaf};
ghost use Rattle.de_leaf_output.specs.Numbers.{is_number, real_in, Tells, Uncounted, NumberRecordIs};

use crate::{Typed, bit};
use enc_integer::{Integer, IntegerRead, try_from_le_slice};
use enc_number::le::{le_u32, le_value};
use tape::record::{BOOL, REAL32, REAL64, Record, SIGNED, UNSIGNED};
use type_book::block;
use type_category::type_category::AdsTypeCategory;
use type_id::AdsTypeId;

// The record that says nothing.
pub fn no_record() -> Record
    ensures { result ≡ new_record 0 0 0 0 }
{
    Record::new(0, 0, 0, 0)
}

// The same number, wider.
fn wide(x: u32) -> u64
    ensures { (result ≡ x) × (result < 4294967296) }
{
    x as u64
}

// The same number, with its bound.
fn whole(x: u64) -> u64
    ensures { (result ≡ x) × (result < 18446744073709551616) }
{
    x
}

// Whether a type of this category is read by its id.
fn is_number(category: AdsTypeCategory) -> bool
    ensures { result ≡ is_number (kind_of_leaf category) }
{
    matches!(
        category,
        AdsTypeCategory::Primitive | AdsTypeCategory::SubRange | AdsTypeCategory::Bitset
    )
}

// Whether the first two bytes of a name are those of a type that counts time: then the whole name must be compared.
fn may_count(name: &[u8]) -> bool
    ensures { Uncounted name.now result }
{
    if name.len() < 2 {
        return false;
    }
    match name[0] {
        b'T' => name[1] == b'I' || name[1] == b'O',
        b'D' => name[1] == b'A' || name[1] == b'T',
        b'L' => name[1] == b'D' || name[1] == b'T',
        _ => false,
    }
}

fn integer_record(read: IntegerRead) -> Record
    ensures { Tells (integer_leaf read) result }
{
    match read {
        IntegerRead::Value(v) => match v {
            Integer::Signed(w, b) => Record::new(SIGNED, w, 0, b),
            Integer::Unsigned(w, n) => Record::new(UNSIGNED, w, 0, n),
        },
        _ => no_record(),
    }
}

// The integer of an id.
fn integer_in(bytes: &[u8], id: AdsTypeId) -> Record
    ensures { Tells (integer_leaf (read_integer id bytes.now)) result }
{
    integer_record(try_from_le_slice(bytes, id))
}

fn bool_in(bytes: &[u8]) -> Record
    ensures { Tells (bool_leaf bytes.now) result }
{
    if bytes.len() == 1 {
        return Record::new(BOOL, 0, 0, bit(bytes[0] != 0));
    }
    no_record()
}

// A real's bits are the number of its bytes, a NaN's too.
fn single_in(bytes: &[u8]) -> Record
    ensures { Tells (real_in AdsTypeId.Real32 bytes.now) result }
{
    if bytes.len() == 4 {
        return Record::new(REAL32, 0, 0, wide(le_u32(bytes)));
    }
    no_record()
}

fn double_in(bytes: &[u8]) -> Record
    ensures { Tells (real_in AdsTypeId.Real64 bytes.now) result }
{
    if bytes.len() == 8 {
        return Record::new(REAL64, 0, 0, whole(le_value(bytes)));
    }
    no_record()
}

// By the id of type block t. Each id has an arm of its own, so that the width is known to the compiler.
fn by_id(book: &[u8], t: u32, bytes: &[u8]) -> Record
    ensures { Tells (number_leaf book.now t bytes.now) result }
{
    let id = block::u32_at(book, t, 4);
    match id {
        2 => integer_in(bytes, AdsTypeId::Int16),
        3 => integer_in(bytes, AdsTypeId::Int32),
        4 => single_in(bytes),
        5 => double_in(bytes),
        16 => integer_in(bytes, AdsTypeId::Int8),
        17 => integer_in(bytes, AdsTypeId::UInt8),
        18 => integer_in(bytes, AdsTypeId::UInt16),
        19 => integer_in(bytes, AdsTypeId::UInt32),
        20 => integer_in(bytes, AdsTypeId::Int64),
        21 => integer_in(bytes, AdsTypeId::UInt64),
        33 => bool_in(bytes),
        _ => no_record(),
    }
}

// The record of a number, with its type's block as it was named; or the one that says nothing.
pub fn number_record(book: &[u8], typed: Typed, bytes: &[u8]) -> Record
    ensures { NumberRecordIs book.now typed bytes.now result }
{
    if is_number(typed.category) && !may_count(block::name(book, typed.resolved)) {
        return by_id(book, typed.resolved, bytes).declaring(typed.named);
    }
    no_record()
}
