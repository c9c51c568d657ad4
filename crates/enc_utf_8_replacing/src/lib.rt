// The UTF-8 decoder over any bytes: what is well-formed is its own text and only copied, each ill_formed part becomes U+FFFD.
#![tactic(auto)]

ghost use Rattle.std.specs.Prelude.{◌≡◌, ◌+◌, ◌≤◌, ◌<◌, length, leb};
ghost use Rattle.enc_utf_8.specs.Buffer.{Wrote, Laid, room_for};
ghost use Rattle.enc_utf_8.specs.Utf8.{utf8_of, ValidTo, Stretch};
ghost use Rattle.enc_utf_8_replacing.specs.Text.{decode8_text};
ghost use Rattle.enc_utf_8_replacing.specs.Step.{ScalarAt, TextAt};

use enc_ascii::copy;
use enc_utf_8::Char;
use enc_utf_8_decoder::{next, valid_carefully, valid_up_to};
use enc_utf_8_encoder::{put, utf8_len};

// A scalar value, and the place after its bytes.
#[derive(Clone, Copy)]
struct Here {
    code: u32,
    next: usize,
}

// How many bytes something takes, and the place after it.
#[derive(Clone, Copy)]
struct Measured {
    size: usize,
    next: usize,
}

// The scalar value at a place, U+FFFD for an ill_formed part.
fn scalar_8(bytes: &[u8], at: usize) -> Here
    requires { at < length bytes.now }
    ensures { ScalarAt bytes.now at result.code result.next }
{
    match next(bytes, at) {
        Char::Code(code, after) => Here { code, next: after },
        Char::Error(after) => Here {
            code: 0xfffd,
            next: after,
        },
        // never: a byte is there
        Char::End => Here { code: 0, next: at },
    }
}

// The end of the well-formed part that begins at a place; the place itself where what begins there is ill_formed. Where one error was, more are likely.
fn formed_end(bytes: &[u8], at: usize) -> usize
    requires { at ≤ length bytes.now }
    ensures { Stretch bytes.now at result }
{
    at + valid_carefully(&bytes[at..], 64)
}

// How many bytes the text of a well-formed part takes, or, where none begins at the place, that of one ill_formed part.
fn measure(bytes: &[u8], at: usize) -> Measured
    requires { at < length bytes.now }
    ensures { TextAt bytes.now at result.size result.next }
{
    let end = formed_end(bytes, at);
    if at < end {
        return Measured {
            size: end - at,
            next: end,
        };
    }
    let here = scalar_8(bytes, at);
    Measured {
        size: utf8_len(here.code),
        next: here.next,
    }
}

// The length of the text of some bytes, where it is at most the room.
pub fn decoded_len(bytes: &[u8], room: usize) -> Option<usize>
    ensures { result ≡ room_for (length (decode8_text bytes.now)) room }
{
    let mut used = 0;
    let mut at = 0;
    while at < bytes.len() {
        let here = measure(bytes, at);
        if room - used < here.size {
            return None;
        }
        used += here.size;
        at = here.next;
    }
    Some(used)
}

// Whether the text of some bytes takes at most `room` bytes. No byte gives more than three, so a short text is not measured.
fn fits_in(bytes: &[u8], room: usize) -> bool
    ensures { result ≡ leb (length (decode8_text bytes.now)) room }
{
    if bytes.len() <= room / 3 {
        return true;
    }
    match decoded_len(bytes, room) {
        Some(_) => true,
        None => false,
    }
}

// Writes a part that is well-formed, and gives the place after it.
fn put_part(part: &[u8], out: &mut [u8], at: usize) -> usize
    requires { at + length part.now ≤ length out.old }
    ensures { Laid part.now out.old at result out.new }
{
    match copy(part, out, at) {
        Some(after) => after,
        // never: it fits
        None => at,
    }
}

// Writes a scalar value, and gives the place after it.
fn put_scalar(code: u32, out: &mut [u8], at: usize) -> usize
    requires { at + length (utf8_of code) ≤ length out.old }
    ensures { Laid (utf8_of code) out.old at result out.new }
{
    match put(out, at, code) {
        Some(after) => after,
        // never: it fits
        None => at,
    }
}

// Writes the text of some bytes, which fits. Their first `formed` bytes are known to be well-formed.
fn put_text(bytes: &[u8], formed: usize, out: &mut [u8], at: usize) -> usize
    requires valid_to { ValidTo bytes.now formed }
    requires bytes_in_bounds { at + length (decode8_text bytes.now) ≤ length out.old }
    ensures { Laid (decode8_text bytes.now) out.old at result out.new }
{
    let mut from = 0;
    let mut end = formed;
    let mut to = at;
    while end < bytes.len() {
        to = put_part(&bytes[from..end], out, to);
        let here = scalar_8(bytes, end);
        to = put_scalar(here.code, out, to);
        from = here.next;
        end = formed_end(bytes, from);
    }
    put_part(&bytes[from..end], out, to)
}

// Writes the text of some bytes from `at` on, all of it or nothing. An empty text fits anywhere; what is well-formed is its own text.
pub fn decode(bytes: &[u8], out: &mut [u8], at: usize) -> Option<usize>
    ensures { Wrote (decode8_text bytes.now) out.old at result out.new }
{
    let formed = valid_up_to(bytes);
    if formed == bytes.len() {
        return copy(bytes, out, at);
    }
    if out.len() < at {
        return None;
    }
    if fits_in(bytes, out.len() - at) {
        return Some(put_text(bytes, formed, out, at));
    }
    None
}
