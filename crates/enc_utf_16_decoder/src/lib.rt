// The UTF-16LE decoder: the text of a WSTRING to UTF-8.
#![tactic(auto)]

ghost use Rattle.std.specs.Prelude.{◌≡◌, ◌+◌, ◌≤◌, ◌<◌, length, drop, leb, Some};
ghost use Rattle.enc_utf_8.specs.Utf8.{utf8_of};
ghost use Rattle.enc_utf_8.specs.Buffer.{Wrote, room_for};
ghost use Rattle.enc_utf_16.specs.Decode.{decode16_text};
ghost use Rattle.enc_utf_16_decoder.specs.Step.{TextAt16, PartWrote};

use enc_ascii::block_end;
use enc_utf_8_encoder::{put, utf8_len};
use enc_utf_16_ascii::{ascii_block, copy_units};
use enc_utf_16_scalar::scalar_16;

// A place in the bytes that are read, and the one in the buffer that belongs to it.
#[derive(Clone, Copy)]
struct Places {
    from: usize,
    to: usize,
}

// How many bytes something takes, and the place after it.
#[derive(Clone, Copy)]
struct Measured {
    size: usize,
    next: usize,
}

// How many bytes in UTF-8 the scalar values take that begin from `at` on, before `end`.
fn measure_units(bytes: &[u8], at: usize, end: usize) -> Measured
    requires { (at < end) × (end ≤ length bytes.now) × (end ≤ at + 64) }
    ensures { TextAt16 bytes.now at result.size result.next }
{
    let mut size = 0;
    let mut next = at;
    while next < end {
        let here = scalar_16(bytes, next);
        size += utf8_len(here.code);
        next = here.next;
    }
    Measured { size, next }
}

// The same of a block from `at` on.
fn measure(bytes: &[u8], at: usize) -> Measured
    requires { at < length bytes.now }
    ensures { TextAt16 bytes.now at result.size result.next }
{
    if ascii_block(bytes, at) {
        return Measured {
            size: 32,
            next: at + 64,
        };
    }
    measure_units(bytes, at, block_end(at, bytes.len()))
}

// How many bytes the text takes in UTF-8, where that is at most `room`.
pub fn decoded_len(bytes: &[u8], room: usize) -> Option<usize>
    ensures { result ≡ room_for (length (decode16_text bytes.now)) room }
{
    let mut at = 0;
    let mut used = 0;
    while at < bytes.len() {
        let here = measure(bytes, at);
        if room - used < here.size {
            return None;
        }
        used += here.size;
        at = here.next;
    }
    Some(used)
}

// Whether the text takes at most `room` bytes in UTF-8. No byte gives more than three, so a short text is not measured.
fn fits_in(bytes: &[u8], room: usize) -> bool
    ensures { result ≡ leb (length (decode16_text bytes.now)) room }
{
    bytes.len() <= room / 3 || matches!(decoded_len(bytes, room), Some(_))
}

// Writes a scalar value in UTF-8 from `at` on, where it fits. What takes one byte or two is told first.
fn put_8(out: &mut [u8], at: usize, code: u32) -> Option<usize>
    ensures { Wrote (utf8_of code) out.old at result out.new }
{
    if code >= 0x800 {
        return put(out, at, code);
    }
    if out.len() <= at {
        return None;
    }
    if code < 0x80 {
        out[at] = code as u8;
        return Some(at + 1);
    }
    if out.len() - at < 2 {
        return None;
    }
    out[at] = (0xc0 + code / 64) as u8;
    out[at + 1] = (0x80 + code % 64) as u8;
    Some(at + 2)
}

// Writes in UTF-8, from `to` on, the scalar values that begin from `from` on, before `end`.
fn write_units(bytes: &[u8], from: usize, end: usize, out: &mut [u8], to: usize) -> Places
    requires from_lt_end { (from < end) × (end ≤ length bytes.now) }
    requires bytes_in_bounds { to + length (decode16_text (drop from bytes.now)) ≤ length out.old }
    ensures { PartWrote bytes.now from out.old to result.from out.new result.to }
{
    let mut at = from;
    let mut place = to;
    while at < end {
        let here = scalar_16(bytes, at);
        let Some(after) = put_8(out, place, here.code) else {
            // never: the text fits
            return Places {
                from: at,
                to: place,
            };
        };
        place = after;
        at = here.next;
    }
    Places {
        from: at,
        to: place,
    }
}

// The same of a block from `from` on.
fn write_block(bytes: &[u8], from: usize, out: &mut [u8], to: usize) -> Places
    requires from_in_bounds { from < length bytes.now }
    requires bytes_in_bounds { to + length (decode16_text (drop from bytes.now)) ≤ length out.old }
    ensures { PartWrote bytes.now from out.old to result.from out.new result.to }
{
    if ascii_block(bytes, from) {
        let after = copy_units(bytes, from, out, to);
        return Places {
            from: from + 64,
            to: after,
        };
    }
    write_units(bytes, from, block_end(from, bytes.len()), out, to)
}

// Writes the text in UTF-8 from `at` on, where it fits, and gives the place after it.
fn write_8(bytes: &[u8], out: &mut [u8], at: usize) -> usize
    requires { at + length (decode16_text bytes.now) ≤ length out.old }
    ensures { Wrote (decode16_text bytes.now) out.old at (Some result) out.new }
{
    let mut from = 0;
    let mut to = at;
    while from < bytes.len() {
        let done = write_block(bytes, from, out, to);
        from = done.from;
        to = done.to;
    }
    to
}

// Decodes UTF-16LE to UTF-8 from `at` on; the buffer is not touched where the text does not fit. An empty text fits anywhere.
pub fn decode(bytes: &[u8], out: &mut [u8], at: usize) -> Option<usize>
    ensures { Wrote (decode16_text bytes.now) out.old at result out.new }
{
    if bytes.is_empty() {
        return Some(at);
    }
    if out.len() < at {
        return None;
    }
    if fits_in(bytes, out.len() - at) {
        return Some(write_8(bytes, out, at));
    }
    None
}
