// The operations of the crates `enc_number`, `type_id`, `enc_integer` and `enc_float`, by their numbers. Each takes a case's input and a lent
// buffer `out`, which stands in the answer after the reply.
use crate::answer::{Answered, byte, byte_and, number};
use cases_file::input::{byte_at, from, u32_at, u64_at};
use enc_float::{Real, RealRead, RealWrite};
use enc_integer::{Integer, IntegerRead, IntegerWrite};
use type_id::AdsTypeId;

// Document 01's refusals.
const SIZE: u8 = 10;

const UNREADABLE: u8 = 11;

const MISMATCH: u8 = 17;

const OUT_OF_RANGE: u8 = 19;

// Document 01's kinds of record.
#[derive(Clone, Copy)]
enum Kind {
    Signed = 7,
    Unsigned = 8,
    Single = 9,
    Double = 10,
}

pub(crate) fn run(operation: u8, input: &[u8], out: &mut [u8]) -> Answered {
    match operation {
        32 => type_id(u32_at(input, 0)),
        33 => number(enc_number::le::le_value(input), 8),
        34 => number(enc_number::le::le_u32(input) as u64, 4),
        35 => le_store(input, out),
        36 => integer_read(input),
        37 => integer_write(input, out),
        38 => real_read(input),
        39 => real_write(input, out),
        _ => Answered::default(),
    }
}

// The place of an id in the list of ids, which tells the variants apart. No `as` gives it, since one of them holds a number.
fn ordinal(id: AdsTypeId) -> u8 {
    match id {
        AdsTypeId::Void => 0,
        AdsTypeId::Int16 => 1,
        AdsTypeId::Int32 => 2,
        AdsTypeId::Real32 => 3,
        AdsTypeId::Real64 => 4,
        AdsTypeId::Int8 => 5,
        AdsTypeId::UInt8 => 6,
        AdsTypeId::UInt16 => 7,
        AdsTypeId::UInt32 => 8,
        AdsTypeId::Int64 => 9,
        AdsTypeId::UInt64 => 10,
        AdsTypeId::String => 11,
        AdsTypeId::WString => 12,
        AdsTypeId::Real80 => 13,
        AdsTypeId::Bit => 14,
        AdsTypeId::MaxTypes => 15,
        AdsTypeId::BigType => 16,
        AdsTypeId::Unknown(_) => 17,
    }
}

fn type_id(n: u32) -> Answered {
    let id = AdsTypeId::from_u32(n);
    byte_and(ordinal(id), id.to_u32() as u64, 4)
}

fn le_store(input: &[u8], out: &mut [u8]) -> Answered {
    enc_number::le::le_store(u64_at(input, 0), out);
    Answered::default()
}

// Zero, the record's kind, its width and its bits.
fn value(kind: Kind, width: u8, bits: u64) -> Answered {
    Answered {
        head: 256 * (kind as u64) + 65536 * (width as u64),
        head_len: 3,
        value: bits,
        value_len: 8,
    }
}

fn integer(read: Integer) -> Answered {
    match read {
        Integer::Signed(width, bits) => value(Kind::Signed, width, bits),
        Integer::Unsigned(width, bits) => value(Kind::Unsigned, width, bits),
    }
}

fn integer_read(input: &[u8]) -> Answered {
    let id = AdsTypeId::from_u32(u32_at(input, 0));
    match enc_integer::try_from_le_slice(from(input, 4), id) {
        IntegerRead::Value(read) => integer(read),
        IntegerRead::Size => byte(SIZE),
        IntegerRead::Unsupported => byte(UNREADABLE),
    }
}

fn integer_of(kind: u8, width: u8, bits: u64) -> Integer {
    if kind == Kind::Signed as u8 {
        return Integer::Signed(width, bits);
    }
    Integer::Unsigned(width, bits)
}

fn refusal_of(write: IntegerWrite) -> u8 {
    match write {
        IntegerWrite::Done => 0,
        IntegerWrite::OutOfRange => OUT_OF_RANGE,
        IntegerWrite::Size => SIZE,
        IntegerWrite::Unsupported => MISMATCH,
    }
}

fn integer_write(input: &[u8], out: &mut [u8]) -> Answered {
    let id = AdsTypeId::from_u32(u32_at(input, 0));
    let value = integer_of(byte_at(input, 4), byte_at(input, 5), u64_at(input, 6));
    byte(refusal_of(enc_integer::to_le_slice(value, id, out)))
}

fn kind_of(value: Real) -> Kind {
    match value {
        Real::Single(_) | Real::NanSingle(_) => Kind::Single,
        Real::Double(_) | Real::NanDouble(_) => Kind::Double,
    }
}

fn real_read(input: &[u8]) -> Answered {
    let id = AdsTypeId::from_u32(u32_at(input, 0));
    match enc_float::real_from_le_slice(from(input, 4), id) {
        RealRead::Value(read) => value(kind_of(read), 0, read.bits()),
        RealRead::Size => byte(SIZE),
        RealRead::Unsupported => byte(UNREADABLE),
    }
}

fn refusal_of_real(write: RealWrite) -> u8 {
    match write {
        RealWrite::Done => 0,
        RealWrite::Size => SIZE,
    }
}

fn real_write(input: &[u8], out: &mut [u8]) -> Answered {
    let value = enc_float::real_from_bits(
        byte_at(input, 0) == Kind::Double as u8,
        u64_at(input, 1),
    );
    byte(refusal_of_real(enc_float::real_to_le_slice(value, out)))
}
