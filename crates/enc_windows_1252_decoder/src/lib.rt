// The Windows-1252 decoder: bytes to UTF-8. It goes by blocks of at most 64 bytes, of which one that is ASCII throughout is only copied.
#![tactic(auto)]

ghost use Rattle.std.specs.Prelude.{◌≡◌, true, cond, ◌&&◌, ◌+◌, ◌-◌, ◌/◌, ◌≤◌, ◌<◌, length, leb, ltb, MatchOption};
ghost use Rattle.enc_utf_8.specs.Buffer.{Wrote, Laid, room_for};
ghost use Rattle.enc_utf_8.specs.Utf8.{utf8_of};
ghost use Rattle.enc_windows_1252.specs.Text.{decode_byte, decode_text};
ghost use Rattle.enc_windows_1252_decoder.specs.Lengths.{most_more};

use enc_ascii::{copy, is_ascii};
use enc_windows_1252::code_point;

// The bytes of a block.
const BLOCK: usize = 64;

// A text of more bytes is decoded by pieces of so many, where there is room for any text.
const PIECE: usize = 4096;

// 1 where a number is at least another, else 0: to be added, since a branch for each byte would be slow.
fn at_least(number: u32, least: u32) -> u32
    ensures { (result ≡ cond (ltb number least) 0 1) × (result ≤ 1) }
{
    (least <= number) as u32
}

// How many bytes a byte's code point takes in UTF-8. It follows from the code point: 1 below 80h, 2 below 800h, else 3. The code point is asked for
// twice, so that each comparison becomes a mask of bits and no branch.
fn utf8_length_of(byte: u8) -> usize
    ensures { (result ≡ length (decode_byte byte)) × (result ≤ 3) }
{
    let second = at_least(code_point(byte), 0x80);
    let third = at_least(code_point(byte), 0x800);
    (1 + second + third) as usize
}

// The length of a block's text.
fn block_len(block: &[u8]) -> usize
    requires { length block.now ≤ 64 }
    ensures { result ≡ length (decode_text block.now) }
{
    if is_ascii(block) {
        return block.len();
    }
    block.iter().map(|&byte| utf8_length_of(byte)).sum()
}

// The length of the text of some bytes, where it is at most the room.
pub fn decoded_len(bytes: &[u8], room: usize) -> Option<usize>
    ensures { result ≡ room_for (length (decode_text bytes.now)) room }
{
    let mut n: usize = 0;
    for block in bytes.chunks(BLOCK) {
        let len = block_len(block);
        if room - n < len {
            return None;
        }
        n += len;
    }
    Some(n)
}

// Writes a code point of two or three bytes, without a branch. From 800h on it is 2000h to 3FFFh, so that a division tells which. The first byte
// of three is written in any case: for two, the next write replaces it.
fn put_wide(code: u32, out: &mut [u8], at: usize) -> usize
    requires le_code { (0x80 ≤ code) × (code < 0x4000) × (code / 0x2000 ≡ cond (ltb code 0x800) 0 1) }
    requires code_in_bounds { at + length (utf8_of code) ≤ length out.old }
    ensures { Laid (utf8_of code) out.old at result out.new }
{
    let third = code / 0x2000;
    let last = at + third as usize;
    out[at] = (0xe0 + code / 4096) as u8;
    out[last] = (0xc0 + code / 64 % 64 - 64 * third) as u8;
    out[last + 1] = (0x80 + code % 64) as u8;
    last + 2
}

// Writes one byte's text. ASCII is told first, and then the bytes from A0h on, whose code points are their own numbers.
fn put_byte(byte: u8, out: &mut [u8], at: usize) -> usize
    requires { at + length (decode_byte byte) ≤ length out.old }
    ensures { Laid (decode_byte byte) out.old at result out.new }
{
    if byte < 0x80 {
        out[at] = byte;
        return at + 1;
    }
    if 0xa0 <= byte {
        out[at] = 0xc0 + byte / 64;
        out[at + 1] = 0x80 + byte % 64;
        return at + 2;
    }
    put_wide(code_point(byte), out, at)
}

// Writes the text of a block, byte by byte.
fn put_each(block: &[u8], out: &mut [u8], at: usize) -> usize
    requires { at + length (decode_text block.now) ≤ length out.old }
    ensures { Laid (decode_text block.now) out.old at result out.new }
{
    let mut next = at;
    for &byte in block {
        next = put_byte(byte, out, next);
    }
    next
}

// Writes the text of some bytes that are ASCII throughout: it is themselves. Of other bytes nothing is written.
fn put_ascii(part: &[u8], out: &mut [u8], at: usize) -> Option<usize>
    requires { at + length (decode_text part.now) ≤ length out.old }
    ensures { MatchOption result (out.new ≡ out.old) (λ next. Laid (decode_text part.now) out.old at next out.new) }
{
    if !is_ascii(part) {
        return None;
    }
    match copy(part, out, at) {
        Some(next) => Some(next),
        // never: the text fits
        None => None,
    }
}

// Writes the text of a block.
fn put_block(block: &[u8], out: &mut [u8], at: usize) -> usize
    requires { at + length (decode_text block.now) ≤ length out.old }
    ensures { Laid (decode_text block.now) out.old at result out.new }
{
    match put_ascii(block, out, at) {
        Some(next) => next,
        None => put_each(block, out, at),
    }
}

// Writes the text of some bytes, which fits.
fn put_text(bytes: &[u8], out: &mut [u8], at: usize) -> usize
    requires { at + length (decode_text bytes.now) ≤ length out.old }
    ensures { Laid (decode_text bytes.now) out.old at result out.new }
{
    let mut next = at;
    for block in bytes.chunks(BLOCK) {
        next = put_block(block, out, next);
    }
    next
}

// Writes the text of a piece.
fn put_piece(piece: &[u8], out: &mut [u8], at: usize) -> usize
    requires { at + length (decode_text piece.now) ≤ length out.old }
    ensures { Laid (decode_text piece.now) out.old at result out.new }
{
    match put_ascii(piece, out, at) {
        Some(next) => next,
        None => put_text(piece, out, at),
    }
}

// Writes the text of some bytes, which fits, by pieces: each is still near when it is copied after its test.
fn put_pieces(bytes: &[u8], out: &mut [u8], at: usize) -> usize
    requires { at + length (decode_text bytes.now) ≤ length out.old }
    ensures { Laid (decode_text bytes.now) out.old at result out.new }
{
    let mut next = at;
    for piece in bytes.chunks(PIECE) {
        next = put_piece(piece, out, next);
    }
    next
}

// How many bytes more than one a byte's text takes at most: none for ASCII, one from A0h on, two between.
fn most_more(byte: u8) -> u8
    ensures { (result ≡ most_more byte) × (result ≤ 2) }
{
    if byte < 0x80 {
        return 0;
    }
    if byte < 0xa0 {
        return 2;
    }
    1
}

// How many bytes more than the block a block's text takes at most. It needs no table, and no branch for each byte.
fn block_more(block: &[u8]) -> usize
    requires { length block.now ≤ 64 }
    ensures { (length (decode_text block.now) ≤ length block.now + result) × (result ≤ 128) }
{
    let more: u8 = block.iter().map(|&byte| most_more(byte)).sum();
    more as usize
}

// Whether the text fits even where each byte takes the most that it can. Most texts that fit are told so, and need not be measured.
fn surely_fits(bytes: &[u8], room: usize) -> bool
    ensures { result ≡ true → length (decode_text bytes.now) ≤ room }
{
    let mut n: usize = 0;
    for block in bytes.chunks(BLOCK) {
        let most = block.len() + block_more(block);
        if room - n < most {
            return false;
        }
        n += most;
    }
    true
}

// Whether the text of some bytes takes at most `room` bytes. No byte gives more than three, so a short text is not measured.
fn fits_in(bytes: &[u8], room: usize) -> bool
    ensures { result ≡ leb (length (decode_text bytes.now)) room }
{
    bytes.len() <= room / 3
        || surely_fits(bytes, room)
        || matches!(decoded_len(bytes, room), Some(_))
}

// Whether `len` bytes are more than a piece, and from `at` to `end` there is room for three bytes for each of them, so for any text.
fn is_long_with_room(len: usize, at: usize, end: usize) -> bool
    ensures { result ≡ ltb 4096 len && (leb at end && leb len ((end - at) / 3)) }
{
    PIECE < len && at <= end && len <= (end - at) / 3
}

// Writes the text of some bytes from `at` on, all of it or nothing. An empty text fits anywhere; ASCII is its own text.
pub fn decode(bytes: &[u8], out: &mut [u8], at: usize) -> Option<usize>
    ensures { Wrote (decode_text bytes.now) out.old at result out.new }
{
    if bytes.len() == 0 {
        return Some(at);
    }
    if is_long_with_room(bytes.len(), at, out.len()) {
        return Some(put_pieces(bytes, out, at));
    }
    if is_ascii(bytes) {
        return copy(bytes, out, at);
    }
    if out.len() < at {
        return None;
    }
    if fits_in(bytes, out.len() - at) {
        return Some(put_text(bytes, out, at));
    }
    None
}
