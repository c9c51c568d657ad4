// The index: the code point of a byte, and back.
ghost use Rattle.std.specs.Prelude.{◌≡◌, ◌%◌, get_or};
ghost use Rattle.enc_windows_1252.specs.Index.{listed_points, code_point, code_points, first_from, byte_of};

use crate::data;

// The table of code points. Whoever reads more than one of them takes it once.
#[tactic(auto, unfolding(crate::specs::Index::listed_points, crate::specs::Index::code_point, crate::specs::Index::code_points))]
pub fn code_points() -> [u32; 256]
    ensures { result ≡ code_points }
{
    data::CODE_POINTS
}

// A byte's entry of that table.
fn entry(points: &[u32; 256], byte: u8) -> u32
    requires { points.now ≡ code_points }
    ensures { result ≡ code_point byte }
{
    points[byte as usize]
}

// The code points of 80h to 9Fh, by the byte's five lowest bits. LLVM keeps such a `match` in the program's read-only data.
#[tactic(auto, unfolding(crate::specs::Index::listed_points))]
fn listed_point(byte: u8) -> u32
    ensures { result ≡ get_or listed_points (byte % 32) 0 }
{
    match byte % 32 {
        0x00 => 0x20ac,
        0x01 => 0x81,
        0x02 => 0x201a,
        0x03 => 0x192,
        0x04 => 0x201e,
        0x05 => 0x2026,
        0x06 => 0x2020,
        0x07 => 0x2021,
        0x08 => 0x2c6,
        0x09 => 0x2030,
        0x0a => 0x160,
        0x0b => 0x2039,
        0x0c => 0x152,
        0x0d => 0x8d,
        0x0e => 0x17d,
        0x0f => 0x8f,
        0x10 => 0x90,
        0x11 => 0x2018,
        0x12 => 0x2019,
        0x13 => 0x201c,
        0x14 => 0x201d,
        0x15 => 0x2022,
        0x16 => 0x2013,
        0x17 => 0x2014,
        0x18 => 0x2dc,
        0x19 => 0x2122,
        0x1a => 0x161,
        0x1b => 0x203a,
        0x1c => 0x153,
        0x1d => 0x9d,
        0x1e => 0x17e,
        _ => 0x178,
    }
}

// The code point of a byte: its own number, except 80h to 9Fh.
pub fn code_point(byte: u8) -> u32
    ensures { result ≡ code_point byte }
{
    let listed = listed_point(byte);
    if byte / 32 == 4 {
        return listed;
    }
    byte as u32
}

// The first of the bytes 80h to 9Fh that has this code point.
fn listed_byte(code: u32) -> Option<u8>
    ensures { result ≡ first_from code 0x80 0x20 }
{
    let points = code_points();
    for byte in 0x80..0xa0 {
        if entry(&points, byte) == code {
            return Some(byte);
        }
    }
    None
}

// The byte of a code point. Below 80h and from A0h to FFh they are the same number. (As a `match` with one call of the search the encoder was
// slower, up to 1.4 times: the search then stands within this function, which is called for each code point in place of being built in.)
pub fn byte_of(code: u32) -> Option<u8>
    ensures { result ≡ byte_of code }
{
    if code < 0x80 {
        return Some(code as u8);
    }
    if code < 0xa0 {
        return listed_byte(code);
    }
    if code < 0x100 {
        return Some(code as u8);
    }
    listed_byte(code)
}
