// The Windows-1252 encoder: UTF-8 to bytes. A code point that has no byte becomes a decimal character reference, as `&#1046;`.
#![tactic(auto)]

ghost use Rattle.std.specs.Prelude.{◌≡◌, ◌+◌, ◌<◌, ◌≤◌, length, drop};
ghost use Rattle.enc_utf_8.specs.Buffer.{Wrote, Laid, room_for};
ghost use Rattle.enc_windows_1252.specs.Text.{decimal, reference, encode_code, encode_text};
ghost use Rattle.enc_windows_1252_encoder.specs.Step.{AsciiTo, TakenFrom};

use enc_ascii::{copy, is_ascii};
use enc_utf_8::Char;
use enc_utf_8_decoder::next;
use enc_windows_1252::byte_of;

// How far a text is ASCII from its start on, in blocks of 64 bytes, of which the last may be shorter.
fn ascii_prefix(text: &[u8]) -> usize
    ensures { AsciiTo text.now result }
{
    let (blocks, rest) = text.as_chunks::<64>();
    let mut n: usize = 0;
    for block in blocks {
        if !is_ascii(block) {
            return n;
        }
        n += 64;
    }
    if is_ascii(rest) {
        return text.len();
    }
    n
}

// A code point of a text, and the place after it.
#[derive(Clone, Copy)]
struct Scalar {
    code: u32,
    next: usize,
}

// The code point at `at`, as the UTF-8 decoder reads it. An ill_formed part is U+FFFD.
fn long_scalar_at(text: &[u8], at: usize) -> Scalar
    requires { at < length text.now }
    ensures { TakenFrom text.now at result.code result.next }
{
    match next(text, at) {
        Char::Code(code, end) => Scalar { code, next: end },
        Char::Error(end) => Scalar {
            code: 0xfffd,
            next: end,
        },
        // never: there is a byte at `at`
        Char::End => Scalar {
            code: 0xfffd,
            next: text.len(),
        },
    }
}

// The code point at `at`. ASCII is told first.
fn scalar_at(text: &[u8], at: usize) -> Scalar
    requires { at < length text.now }
    ensures { TakenFrom text.now at result.code result.next }
{
    let first = text[at];
    if first < 0x80 {
        return Scalar {
            code: first as u32,
            next: at + 1,
        };
    }
    long_scalar_at(text, at)
}

// How many decimal digits a number has.
fn decimal_len(number: u32) -> usize
    ensures { (result ≡ length (decimal number)) × (result ≤ number + 1) }
{
    let mut rest = number;
    let mut len: usize = 1;
    while rest >= 10 {
        rest = rest / 10;
        len += 1;
    }
    len
}

// How many bytes a code point takes.
fn code_len(code: u32) -> usize
    ensures { result ≡ length (encode_code code) }
{
    if code < 0x80 {
        return 1;
    }
    match byte_of(code) {
        Some(_) => 1,
        None => decimal_len(code) + 3,
    }
}

// The number of bytes of a text, where it is at most the room.
pub fn encoded_len(text: &[u8], room: usize) -> Option<usize>
    ensures { result ≡ room_for (length (encode_text text.now)) room }
{
    let start = ascii_prefix(text);
    if room < start {
        return None;
    }
    let mut n = start;
    let mut i = start;
    while i < text.len() {
        let scalar = scalar_at(text, i);
        let len = code_len(scalar.code);
        if room - n < len {
            return None;
        }
        n += len;
        i = scalar.next;
    }
    Some(n)
}

// Writes a number in decimal, the highest digit first.
fn put_decimal(number: u32, out: &mut [u8], at: usize) -> usize
    requires { at + length (decimal number) ≤ length out.old }
    ensures { Laid (decimal number) out.old at result out.new }
{
    if number < 10 {
        out[at] = (0x30 + number) as u8;
        return at + 1;
    }
    let end = put_decimal(number / 10, out, at);
    out[end] = (0x30 + number % 10) as u8;
    end + 1
}

// Writes a decimal character reference.
fn put_reference(code: u32, out: &mut [u8], at: usize) -> usize
    requires { at + length (reference code) ≤ length out.old }
    ensures { Laid (reference code) out.old at result out.new }
{
    out[at] = b'&';
    out[at + 1] = b'#';
    let end = put_decimal(code, out, at + 2);
    out[end] = b';';
    end + 1
}

// Writes a code point: its byte, or a reference where it has none.
fn put_code(code: u32, out: &mut [u8], at: usize) -> usize
    requires { at + length (encode_code code) ≤ length out.old }
    ensures { Laid (encode_code code) out.old at result out.new }
{
    if code < 0x80 {
        out[at] = code as u8;
        return at + 1;
    }
    match byte_of(code) {
        Some(byte) => {
            out[at] = byte;
            at + 1
        }
        None => put_reference(code, out, at),
    }
}

// Writes the code points of a text from `from` on, whose bytes fit.
fn put_from(text: &[u8], from: usize, out: &mut [u8], at: usize) -> usize
    requires { at + length (encode_text (drop from text.now)) ≤ length out.old }
    ensures { Laid (encode_text (drop from text.now)) out.old at result out.new }
{
    let mut next = at;
    let mut i = from;
    while i < text.len() {
        let scalar = scalar_at(text, i);
        next = put_code(scalar.code, out, next);
        i = scalar.next;
    }
    next
}

// Writes the code points of a text, whose bytes fit. What is ASCII at its start is only copied.
fn put_codes(text: &[u8], out: &mut [u8]) -> usize
    requires { length (encode_text text.now) ≤ length out.old }
    ensures { Laid (encode_text text.now) out.old 0 result out.new }
{
    let start = ascii_prefix(text);
    match copy(&text[..start], out, 0) {
        Some(at) => put_from(text, start, out, at),
        // never: the bytes fit
        None => 0,
    }
}

// Writes the bytes of a text at the start of `out`, all of them or none.
pub fn encode(text: &[u8], out: &mut [u8]) -> Option<usize>
    ensures { Wrote (encode_text text.now) out.old 0 result out.new }
{
    match encoded_len(text, out.len()) {
        Some(len) => {
            put_codes(text, out);
            Some(len)
        }
        None => None,
    }
}
