// The UTF-16LE encoder: UTF-8 to the text of a WSTRING.
#![tactic(auto)]

ghost use Rattle.std.specs.Prelude.{◌≡◌, ◌++◌, ◌≤◌, ◌<◌, length, leb, Some};
ghost use Rattle.enc_utf_8.specs.Utf8.{scalars};
ghost use Rattle.enc_utf_8.specs.Buffer.{Wrote, room_for};
ghost use Rattle.enc_utf_16.specs.Encode.{unit_bytes, utf16_of, encode16_text};
ghost use Rattle.enc_utf_16.specs.Step.{ScalarAtIn};

use enc_utf_8::Char;
use enc_utf_8_decoder::next;

// What an error is replaced by.
const REPLACEMENT: u32 = 0xfffd;

// A scalar value, and the place after it.
#[derive(Clone, Copy)]
struct Scalar {
    code: u32,
    next: usize,
}

// The scalar value at a place of a UTF-8 text; U+FFFD for what is ill_formed.
fn long_scalar_8(text: &[u8], at: usize) -> Scalar
    requires { at < length text.now }
    ensures { ScalarAtIn scalars text.now at result.code result.next }
{
    match next(text, at) {
        Char::Code(code, next) => Scalar { code, next },
        Char::Error(next) => Scalar {
            code: REPLACEMENT,
            next,
        },
        Char::End => Scalar {
            code: REPLACEMENT,
            next: at,
        },
    }
}

// The same. ASCII is told first, since most text is ASCII.
fn scalar_8(text: &[u8], at: usize) -> Scalar
    requires { at < length text.now }
    ensures { ScalarAtIn scalars text.now at result.code result.next }
{
    let first = text[at];
    if first < 0x80 {
        return Scalar {
            code: u32::from(first),
            next: at + 1,
        };
    }
    long_scalar_8(text, at)
}

// How many bytes a scalar value takes in UTF-16.
fn utf16_len(code: u32) -> usize
    ensures { result ≡ length (utf16_of code) }
{
    if code < 0x10000 {
        return 2;
    }
    4
}

// Writes some bytes from `at` on, all of them or none.
fn put_bytes<const N: usize>(out: &mut [u8], at: usize, bytes: [u8; N]) -> Option<usize>
    requires { 0 < N }
    ensures { Wrote bytes.entry out.old at result out.new }
{
    if out.len() < at || out.len() - at < N {
        return None;
    }
    out[at..at + N].copy_from_slice(&bytes);
    Some(at + N)
}

// Writes a code unit from `at` on, its low byte first, where it fits.
fn put_unit(out: &mut [u8], at: usize, unit: u32) -> Option<usize>
    ensures { Wrote (unit_bytes unit) out.old at result out.new }
{
    let [low, high, _, _] = unit.to_le_bytes();
    put_bytes(out, at, [low, high])
}

// Writes a surrogate pair from `at` on, all of it or nothing.
fn put_pair(out: &mut [u8], at: usize, lead: u32, trail: u32) -> Option<usize>
    ensures { Wrote (unit_bytes lead ++ unit_bytes trail) out.old at result out.new }
{
    let [low, high, _, _] = lead.to_le_bytes();
    let [second_low, second_high, _, _] = trail.to_le_bytes();
    put_bytes(out, at, [low, high, second_low, second_high])
}

// Writes a scalar value from `at` on, where it fits.
fn put_16(out: &mut [u8], at: usize, code: u32) -> Option<usize>
    ensures { Wrote (utf16_of code) out.old at result out.new }
{
    if code < 0x10000 {
        return put_unit(out, at, code);
    }
    let over = code - 0x10000;
    put_pair(out, at, 0xd800 + over / 0x400, 0xdc00 + over % 0x400)
}

// How many bytes the text takes in UTF-16, where that is at most `room`.
pub fn encoded_len(text: &[u8], room: usize) -> Option<usize>
    ensures { result ≡ room_for (length (encode16_text text.now)) room }
{
    let mut at = 0;
    let mut used = 0;
    while at < text.len() {
        let here = scalar_8(text, at);
        let size = utf16_len(here.code);
        if room - used < size {
            return None;
        }
        used += size;
        at = here.next;
    }
    Some(used)
}

// Writes the text in UTF-16LE, where it fits, and gives the place after it.
fn write_16(text: &[u8], out: &mut [u8]) -> usize
    requires { length (encode16_text text.now) ≤ length out.old }
    ensures { Wrote (encode16_text text.now) out.old 0 (Some result) out.new }
{
    let mut from = 0;
    let mut to = 0;
    while from < text.len() {
        let here = scalar_8(text, from);
        let Some(end) = put_16(out, to, here.code) else {
            return to;
        };
        to = end;
        from = here.next;
    }
    to
}

// Whether the text takes at most `room` bytes in UTF-16. No byte gives more than two, so a short text is not measured.
fn encoded_fits_in(text: &[u8], room: usize) -> bool
    ensures { result ≡ leb (length (encode16_text text.now)) room }
{
    text.len() <= room / 2 || matches!(encoded_len(text, room), Some(_))
}

// Encodes UTF-8 to UTF-16LE; the buffer is not touched where the text does not fit.
pub fn encode(text: &[u8], out: &mut [u8]) -> Option<usize>
    ensures { Wrote (encode16_text text.now) out.old 0 result out.new }
{
    if encoded_fits_in(text, out.len()) {
        return Some(write_16(text, out));
    }
    None
}
