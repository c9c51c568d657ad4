// The operations of the crates `enc_utf_8`, `enc_windows_1252` and `enc_utf_16`, by their numbers. Each takes a case's input and a lent buffer
// `out`, which stands in the answer after the reply.
use crate::answer::{Answered, byte, byte_and, number, put_number, put_u32};
use cases_file::input::{byte_at, from, u16_at, u32_at};
use enc_utf_8::{Char, TextEnd};

// Document 01's number where a buffer is too short.
const SHORT: u8 = 15;

fn written(put: Option<usize>) -> Answered {
    match put {
        Some(n) => byte_and(0, n as u64, 8),
        None => byte(SHORT),
    }
}

fn room(room: Option<usize>) -> Answered {
    match room {
        Some(n) => byte_and(0, n as u64, 8),
        None => byte(SHORT),
    }
}

fn end(end: TextEnd) -> Answered {
    match end {
        TextEnd::Terminated(n) => byte_and(1, n as u64, 4),
        TextEnd::Unterminated(n) => byte_and(0, n as u64, 4),
    }
}

fn encoded(found: Option<u8>) -> Answered {
    match found {
        Some(b) => byte_and(1, b as u64, 1),
        None => byte(0),
    }
}

pub(crate) fn run(operation: u8, input: &[u8], out: &mut [u8]) -> Answered {
    match operation {
        1 => number(enc_windows_1252::code_point(byte_at(input, 0)) as u64, 4),
        2 => encoded(enc_windows_1252::byte_of(u32_at(input, 0))),
        3 => end(enc_windows_1252::string_end(input)),
        4 => room(enc_windows_1252_decoder::decoded_len(from(input, 2), u16_at(input, 0))),
        5 => written(enc_windows_1252_decoder::decode(from(input, 2), out, u16_at(input, 0))),
        6 => room(enc_windows_1252_encoder::encoded_len(from(input, 2), u16_at(input, 0))),
        7 => written(enc_windows_1252_encoder::encode(input, out)),
        8 => end(enc_utf_16::wstring_end(input)),
        9 => room(enc_utf_16_decoder::decoded_len(from(input, 2), u16_at(input, 0))),
        10 => written(enc_utf_16_decoder::decode(from(input, 2), out, u16_at(input, 0))),
        11 => room(enc_utf_16_encoder::encoded_len(from(input, 2), u16_at(input, 0))),
        12 => written(enc_utf_16_encoder::encode(input, out)),
        13 => byte(enc_utf_8_decoder::well_formed(input) as u8),
        15 => written(enc_utf_8_encoder::put(out, u16_at(input, 0), u32_at(input, 2))),
        16 => number(enc_utf_8_encoder::utf8_len(u32_at(input, 0)) as u64, 1),
        _ => Answered::default(),
    }
}

// All the code points of a text in order, FFFFFFFFh for an ill-formed part, each with the place after it.
pub(crate) fn items(text: &[u8], answer: &mut [u8]) -> usize {
    let mut at = 0;
    let mut to = 0;
    while at < text.len() {
        let (code, next) = match enc_utf_8_decoder::next(text, at) {
            Char::Code(code, next) => (code, next),
            Char::Error(next) => (0xffff_ffff, next),
            Char::End => break,
        };
        to = put_u32(answer, to, code);
        to = put_number(answer, to, next as u64, 4);
        at = next;
    }
    to
}
