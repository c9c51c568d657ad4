// The parts of a case's input. Past its end there are zeros and empty parts, so that any input can be read.
ghost use Rattle.std.specs.Prelude.{◌≡◌, ◌<◌, get_or, take, drop};
ghost use Rattle.enc_number.specs.Le.{le_value};
ghost use Rattle.cases_file.specs.Case.{u16_at};

// What stands from a place on.
pub fn from(input: &[u8], at: usize) -> &[u8]
    ensures { result.now ≡ drop at input.now }
{
    input.get(at..).unwrap_or(&[])
}

// At most the first n bytes.
pub fn first(input: &[u8], n: usize) -> &[u8]
    ensures { result.now ≡ take n input.now }
{
    input.get(..n).unwrap_or(input)
}

// The byte at a place.
pub fn byte_at(input: &[u8], at: usize) -> u8
    ensures { result ≡ get_or input.now at 0 }
{
    input.get(at).copied().unwrap_or(0)
}

// The number of two bytes at a place, low byte first.
pub fn u16_at(input: &[u8], at: usize) -> usize
    ensures { (result ≡ u16_at input.now at) × (result < 65536) }
{
    let part = from(input, at);
    u16::from_le_bytes([byte_at(part, 0), byte_at(part, 1)]) as usize
}

// The number of four bytes at a place, low byte first.
pub fn u32_at(input: &[u8], at: usize) -> u32
    ensures { result ≡ le_value (take 4 (drop at input.now)) }
{
    enc_number::le::le_u32(from(input, at))
}

// The number of eight bytes at a place, low byte first.
pub fn u64_at(input: &[u8], at: usize) -> u64
    ensures { result ≡ le_value (take 8 (drop at input.now)) }
{
    enc_number::le::le_value(from(input, at))
}
