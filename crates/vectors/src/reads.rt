// The operation of the crate de, on the book that is kept.
use crate::answer::{Answered, byte, byte_and, not_found, put};
use crate::lent;
use crate::lent::{FILL, put_all_are};
use crate::packing::put_packed;
use cases_file::input::{byte_at, first, from, u16_at, u32_at};
use de_output::ReadAnswer;

// The bytes of n records, of which a tape has at most 2,730.
fn bytes_of(n: usize) -> usize {
    match n {
        0..=2730 => 24 * n,
        _ => 0,
    }
}

fn reply_of(read: ReadAnswer) -> Answered {
    match read {
        ReadAnswer::Done(n, m) => {
            let counts = (n % 65536) as u64 + 4294967296 * ((m % 65536) as u64);
            byte_and(0, counts, 8)
        }
        ReadAnswer::NotFound(block) => not_found(block),
        ReadAnswer::Refused(n) => byte(n),
    }
}

// The part of a buffer that was written, packed, and 1 if each byte after it is `rest`, else 0.
fn put_part(answer: &mut [u8], at: usize, buffer: &[u8], n: usize, rest: u8) -> usize {
    let at = put_packed(answer, at, first(buffer, n));
    put_all_are(answer, at, from(buffer, n), rest)
}

// What a read leaves: the bytes that are written of tape and text, and A5h after them; after a refusal zeros in all of both.
fn put_read(answer: &mut [u8], read: ReadAnswer, tape: &[u8], text: &[u8]) -> usize {
    let (n, m, rest) = match read {
        ReadAnswer::Done(n, m) => (bytes_of(n), m, FILL),
        _ => (0, 0, 0),
    };
    let at = put(answer, reply_of(read));
    let at = put_part(answer, at, tape, n, rest);
    put_part(answer, at, text, m, rest)
}

// The case says how much of tape and text it lends.
pub(crate) fn read(input: &[u8], book: &[u8], len: usize, answer: &mut [u8]) -> usize {
    let mut tape = lent::tape();
    let mut text = lent::text();
    let Some(tape) = tape.get_mut(..u16_at(input, 5)) else {
        return 0;
    };
    let Some(text) = text.get_mut(..u16_at(input, 7)) else {
        return 0;
    };
    let width = byte_at(input, 0);
    let root = u32_at(input, 1) as u64;
    let memory = from(input, 9);
    let read = de::deserializer::read(book, len, width, root, memory, tape, text);
    put_read(answer, read, tape, text)
}
