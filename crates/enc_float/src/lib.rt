// Reals in memory (IEEE 754): little-endian, of 4 or 8 bytes.
#![tactic(auto)]

ghost use Rattle.std.specs.Prelude.{◌≡◌};
ghost use Rattle.enc_float.specs.Float.{real_width, single_of, double_of, real_of, real_bits, real_size, real_read_numbers, read_real, RealWritten};

use enc_number::le::{le_store, le_value};
use type_id::AdsTypeId;

// A real of 4 or 8 bytes. A float doesn't keep the bits of a NaN, so they have a case of their own.
#[derive(Clone, Copy)]
pub enum Real {
    Single(f32),
    Double(f64),
    NanSingle(u32),
    NanDouble(u64),
}

#[derive(Clone, Copy)]
pub enum RealRead {
    Value(Real),
    // The slice isn't as long as the id's width.
    Size,
    // The id is no real's of 4 or 8 bytes.
    Unsupported,
}

#[derive(Clone, Copy)]
pub enum RealWrite {
    Done,
    // The buffer isn't as long as the real.
    Size,
}

// The width in bytes of the id of a real, and 0 of every other.
fn real_width(id: AdsTypeId) -> usize
    ensures { result ≡ real_width id }
{
    match id {
        AdsTypeId::Real32 => 4,
        AdsTypeId::Real64 => 8,
        _ => 0,
    }
}

// The real of 4 bytes of a bit pattern. Without its sign a pattern above infinity's is a NaN's, which has no f32 of its
// own.
fn single_from_bits(bits: u32) -> Real
    ensures { result ≡ single_of bits }
{
    if bits % 0x8000_0000 > 0x7f80_0000 {
        return Real::NanSingle(bits);
    }
    Real::Single(f32::from_bits(bits))
}

// The real of 8 bytes of a bit pattern, likewise.
fn double_from_bits(bits: u64) -> Real
    ensures { result ≡ double_of bits }
{
    if bits % 0x8000_0000_0000_0000 > 0x7ff0_0000_0000_0000 {
        return Real::NanDouble(bits);
    }
    Real::Double(f64::from_bits(bits))
}

// The real of a bit pattern: of all 64 bits, or of the low 32.
pub fn real_from_bits(double: bool, bits: u64) -> Real
    ensures { result ≡ real_of double bits }
{
    if double {
        return double_from_bits(bits);
    }
    single_from_bits((bits % 0x1_0000_0000) as u32)
}

// Reads the real that the bytes hold, by the id's width.
pub fn real_from_le_slice(slice: &[u8], id: AdsTypeId) -> RealRead
    ensures { real_read_numbers result ≡ real_read_numbers (read_real id slice.now) }
{
    let width = real_width(id);
    if width == 0 {
        return RealRead::Unsupported;
    }
    if slice.len() != width {
        return RealRead::Size;
    }
    RealRead::Value(real_from_bits(width == 8, le_value(slice)))
}

impl Real {
    // The bit pattern of a real. A NaN that a float holds has the one pattern with only the highest digit set.
    pub fn bits(self) -> u64
        ensures { result ≡ real_bits self }
    {
        match self {
            Real::Single(x) => {
                if x != x {
                    return 0x7fc0_0000;
                }
                return u64::from(f32::to_bits(x));
            }
            Real::Double(x) => {
                if x != x {
                    return 0x7ff8_0000_0000_0000;
                }
                return f64::to_bits(x);
            }
            Real::NanSingle(bits) => {
                return u64::from(bits);
            }
            Real::NanDouble(bits) => {
                return bits;
            }
        }
    }
}

// How many bytes a real fills.
fn size(value: Real) -> usize
    ensures { result ≡ real_size value }
{
    match value {
        Real::Single(_) | Real::NanSingle(_) => 4,
        Real::Double(_) | Real::NanDouble(_) => 8,
    }
}

// Stores the bit pattern of a real.
pub fn real_to_le_slice(value: Real, out: &mut [u8]) -> RealWrite
    ensures { RealWritten value out.old result out.new }
{
    if out.len() != size(value) {
        return RealWrite::Size;
    }
    le_store(value.bits(), out);
    RealWrite::Done
}
