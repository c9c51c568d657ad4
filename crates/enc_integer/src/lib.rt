// Integers in memory (IEC 61131-3): little-endian, the signed ones in two's complement.
#![tactic(auto)]

ghost use Rattle.std.specs.Prelude.{◌≡◌, ◌+◌, ◌*◌, ◌^◌, ◌≤◌, ◌<◌};
ghost use Rattle.type_id.specs.TypeId.{id_width, id_signed};
ghost use Rattle.enc_integer.specs.Integer.{twos_complement, twos_bits, integer_value, fits_signed, fits_unsigned, fits_id, pattern_of, integer_read_numbers, read_integer, IntegerWritten};

use enc_number::le::{le_store, le_value};
use type_id::AdsTypeId;

// An integer with its width in bytes. A signed one holds its two's complement of 64 bits.
#[derive(Clone, Copy)]
pub enum Integer {
    Signed(u8, u64),
    Unsigned(u8, u64),
}

#[derive(Clone, Copy)]
pub enum IntegerRead {
    Value(Integer),
    // The slice isn't as long as the id's width.
    Size,
    // The id is no integer's.
    Unsupported,
}

#[derive(Clone, Copy)]
pub enum IntegerWrite {
    Done,
    // The value is outside the id's range.
    OutOfRange,
    // The buffer isn't as long as the id's width.
    Size,
    // The id is no integer's.
    Unsupported,
}

// The width in bytes of an integer's id, and 0 of every other.
fn id_width(id: AdsTypeId) -> u8
    ensures { result ≡ id_width id }
{
    match id {
        AdsTypeId::Int8 | AdsTypeId::UInt8 => 1,
        AdsTypeId::Int16 | AdsTypeId::UInt16 => 2,
        AdsTypeId::Int32 | AdsTypeId::UInt32 => 4,
        AdsTypeId::Int64 | AdsTypeId::UInt64 => 8,
        _ => 0,
    }
}

// Whether an id is a signed integer's.
fn is_signed(id: AdsTypeId) -> bool
    ensures { result ≡ id_signed id }
{
    matches!(
        id,
        AdsTypeId::Int8 | AdsTypeId::Int16 | AdsTypeId::Int32 | AdsTypeId::Int64
    )
}

// The largest number of that many bytes.
fn largest(width: u8) -> u64
    requires { (1 ≤ width) × (width ≤ 8) }
    ensures { result + 1 ≡ 2 ^ (8 * width) }
{
    u64::MAX >> (64 - 8 * (width as u64))
}

// Repeats the sign bit of a number of that many bytes, up to 64 bits.
fn sign_extended(value: u64, width: u8) -> u64
    requires le_width { (1 ≤ width) × (width ≤ 8) }
    requires value_bound { value < 2 ^ (8 * width) }
    ensures { result ≡ twos_bits 8 (twos_complement width value) }
{
    let most = largest(width);
    if value <= most / 2 {
        return value;
    }
    value + (u64::MAX - most)
}

// Reads the integer that the bytes hold, by the id's width and sign.
pub fn try_from_le_slice(slice: &[u8], id: AdsTypeId) -> IntegerRead
    ensures { integer_read_numbers result ≡ integer_read_numbers (read_integer id slice.now) }
{
    let width = id_width(id);
    if width == 0 {
        return IntegerRead::Unsupported;
    }
    if slice.len() != width as usize {
        return IntegerRead::Size;
    }
    let value = le_value(slice);
    if is_signed(id) {
        return IntegerRead::Value(Integer::Signed(width, sign_extended(value, width)));
    }
    IntegerRead::Value(Integer::Unsigned(width, value))
}

// Whether a signed integer of that many bytes holds the value.
pub fn fits_signed(value: Integer, width: u8) -> bool
    requires { (1 ≤ width) × (width ≤ 8) }
    ensures { result ≡ fits_signed width (integer_value value) }
{
    let most = largest(width) / 2;
    match value {
        Integer::Signed(_, bits) => {
            if bits <= most {
                return true;
            }
            // The lowest value, -most - 1, in two's complement.
            return u64::MAX - most <= bits;
        }
        Integer::Unsigned(_, bits) => {
            return bits <= most;
        }
    }
}

// Whether an unsigned integer of that many bytes holds the value.
pub fn fits_unsigned(value: Integer, width: u8) -> bool
    requires { (1 ≤ width) × (width ≤ 8) }
    ensures { result ≡ fits_unsigned width (integer_value value) }
{
    let most = largest(width);
    match value {
        Integer::Signed(_, bits) => {
            // A value below 0 has its sign bit set.
            if u64::MAX / 2 < bits {
                return false;
            }
            return bits <= most;
        }
        Integer::Unsigned(_, bits) => {
            return bits <= most;
        }
    }
}

// Whether the value is in the id's range.
fn fits_id(value: Integer, id: AdsTypeId, width: u8) -> bool
    requires le_width { (1 ≤ width) × (width ≤ 8) }
    requires width_value { width ≡ id_width id }
    ensures { result ≡ fits_id id (integer_value value) }
{
    if is_signed(id) {
        return fits_signed(value, width);
    }
    fits_unsigned(value, width)
}

// The value's two's complement of 64 bits.
fn bits(value: Integer) -> u64
    ensures { result ≡ pattern_of value }
{
    match value {
        Integer::Signed(_, bits) | Integer::Unsigned(_, bits) => bits,
    }
}

// Stores the value as an integer of the id's width and sign. The value's own width doesn't matter.
pub fn to_le_slice(value: Integer, id: AdsTypeId, out: &mut [u8]) -> IntegerWrite
    ensures { IntegerWritten id value out.old result out.new }
{
    let width = id_width(id);
    if width == 0 {
        return IntegerWrite::Unsupported;
    }
    if fits_id(value, id, width) {
        if out.len() != width as usize {
            return IntegerWrite::Size;
        }
        le_store(bits(value), out);
        return IntegerWrite::Done;
    }
    IntegerWrite::OutOfRange
}
