// The groups of byte strings whose texts in UTF-8 are recorded as one sum each: made, decoded or read, and summed.
// tools/record_marked_strings.py makes the same groups, and says what a group's sum is.
ghost use Rattle.std.specs.Prelude.{◌<◌};

use crate::answer::{Answered, number};
use cases_file::input::{byte_at, first, u64_at};
use de_output::ReadAnswer;

// The longest byte string of a group with a zero after it, and room for its text.
const LONGEST: usize = 40;

const ROOM: usize = 120;

// The sum of no texts, and what it is multiplied with for each byte.
const START: u64 = 0xcbf2_9ce4_8422_2325;

const PRIME: u64 = 0x100_0000_01b3;

// The decoder over a group, or the reader over the same group and the kept book.
pub(crate) fn run(operation: u8, input: &[u8], book: &[u8]) -> Answered {
    let sum = match operation {
        17 => pairs(byte_at(input, 0), None),
        18 => leads(byte_at(input, 0), None),
        19 => random(u64_at(input, 0), None),
        20 => pairs(byte_at(input, 0), Some(book)),
        21 => leads(byte_at(input, 0), Some(book)),
        22 => random(u64_at(input, 0), Some(book)),
        _ => return Answered::default(),
    };
    number(sum, 8)
}

// ---- the text of a byte string

// The text in as much room as the decoder itself asks for. A text that isn't written counts as empty, which differs from what is recorded.
fn decoded(bytes: &[u8], text: &mut [u8]) -> usize {
    let Some(n) = enc_utf_8_replacing::decoded_len(bytes, text.len()) else {
        return 0;
    };
    let Some(text) = text.get_mut(..n) else {
        return 0;
    };
    match enc_utf_8_replacing::decode(bytes, text, 0) {
        Some(end) if end == n => n,
        _ => 0,
    }
}

// The text of a memory that the book's first type, a STRING, takes. A refused read counts as an empty text.
fn read(memory: &[u8], book: &[u8], text: &mut [u8]) -> usize {
    let mut tape = [0u8; 24];
    match de::deserializer::read(book, book.len(), 8, 0, memory, &mut tape, text) {
        ReadAnswer::Done(_, n) => n,
        _ => 0,
    }
}

// The text of the first n bytes where there is no book or an empty one, else of all as a memory.
fn text_of(bytes: &[u8], n: usize, book: Option<&[u8]>, text: &mut [u8]) -> usize {
    match book {
        Some(book) if !book.is_empty() => read(bytes, book, text),
        _ => decoded(first(bytes, n), text),
    }
}

// ---- sums

fn with_byte(sum: u64, byte: u8) -> u64 {
    (sum ^ byte as u64).wrapping_mul(PRIME)
}

// A sum with the text of one more byte string.
fn with_text(sum: u64, bytes: &[u8], n: usize, book: Option<&[u8]>) -> u64 {
    let mut text = [0u8; ROOM];
    let len = text_of(bytes, n, book, &mut text);
    let sum = first(&text, len)
        .iter()
        .fold(sum, |sum, byte| with_byte(sum, *byte));
    with_byte(sum, 0xff)
}

// ---- every second byte

fn pair(sum: u64, a: u8, b: u8, book: Option<&[u8]>) -> u64 {
    let mut bytes = [0u8; LONGEST];
    bytes[0] = a;
    bytes[1] = b;
    with_text(sum, &bytes, 2, book)
}

fn pairs(a: u8, book: Option<&[u8]>) -> u64 {
    let mut sum = START;
    for b in 0..=255 {
        sum = pair(sum, a, b, book);
    }
    sum
}

// ---- every class of second, third and fourth byte

const SECOND: [u8; 11] = [
    0x41, 0x7f, 0x80, 0x8f, 0x90, 0x9f, 0xa0, 0xbf, 0xc0, 0xe2, 0xff,
];

const LATER: [u8; 6] = [0x41, 0x7f, 0x80, 0xbf, 0xc0, 0xf1];

// Of 462 tails the first 66 have two bytes, all others three.
fn lead(sum: u64, a: u8, tail: usize, book: Option<&[u8]>) -> u64
    requires { tail < 462 }
{
    let mut bytes = [0u8; LONGEST];
    bytes[0] = a;
    if tail < 66 {
        bytes[1] = SECOND[tail / 6];
        bytes[2] = LATER[tail % 6];
        return with_text(sum, &bytes, 3, book);
    }
    bytes[1] = SECOND[(tail - 66) / 36];
    bytes[2] = LATER[(tail - 66) / 6 % 6];
    bytes[3] = LATER[(tail - 66) % 6];
    with_text(sum, &bytes, 4, book)
}

fn leads(a: u8, book: Option<&[u8]>) -> u64 {
    let mut sum = START;
    for tail in 0..462 {
        sum = lead(sum, a, tail, book);
    }
    sum
}

// ---- a thousand byte strings that are drawn

// The next state of the sequence. What is drawn is the upper half of a state.
fn next(state: u64) -> u64 {
    state
        .wrapping_mul(0x5851_f42d_4c95_7f2d)
        .wrapping_add(1442695040888963407)
}

fn drawn(state: u64) -> usize {
    (state >> 32) as usize
}

// Bytes at which the decoder takes another way.
const POOL: [u8; 19] = [
    0x41, 0x7f, 0x80, 0x8f, 0x90, 0x9f, 0xa0, 0xbf, 0xc2, 0xdf, 0xe0, 0xe2, 0xed, 0xef, 0xf0, 0xf3,
    0xf4, 0xf5, 0xff,
];

fn drawn_byte(plain: bool, n: usize) -> u8 {
    if plain {
        return (n % 256) as u8;
    }
    POOL[n % 19]
}

// Draws bytes after a state, and returns the state after them.
fn draw(bytes: &mut [u8], plain: bool, start: u64) -> u64 {
    let mut state = start;
    for byte in bytes.iter_mut() {
        state = next(state);
        *byte = drawn_byte(plain, drawn(state));
    }
    state
}

#[derive(Clone, Copy)]
struct Summed {
    sum: u64,
    state: u64,
}

// First it is drawn of which bytes, then of how many, and then each byte.
fn with_drawn(so_far: Summed, book: Option<&[u8]>) -> Summed {
    let choice = next(so_far.state);
    let length = next(choice);
    let n = drawn(length) % 40;
    let mut bytes = [0u8; LONGEST];
    let state = draw(&mut bytes[..n], drawn(choice) % 2 == 0, length);
    Summed {
        sum: with_text(so_far.sum, &bytes, n, book),
        state,
    }
}

fn random(state: u64, book: Option<&[u8]>) -> u64 {
    let mut so_far = Summed { sum: START, state };
    for _ in 0..1000 {
        so_far = with_drawn(so_far, book);
    }
    so_far.sum
}
