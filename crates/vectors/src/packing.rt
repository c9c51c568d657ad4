// Packed bytes: a run of zeros is 0 and its length, any other byte is as it is. In a book 0 and 0 stand for the rest of a block:
// zeros, and then the block's sum.
ghost use Rattle.std.specs.Prelude.{◌≤◌, length};

use crate::answer::{put_byte, put_bytes, put_zeros};
use crate::sums::{SUM, put_sum};

const BLOCK: usize = 512;

// The longest run of zeros after a first one, so that one byte counts them all.
const RUN: usize = 254;

// The rest of the block that a place stands in: zeros up to its sum, and the sum.
fn close_block(book: &mut [u8], to: usize) -> usize {
    put_zeros(book, to, SUM.saturating_sub(to % BLOCK));
    put_sum(book, (to % 4294967296) as u32 / 512 * 512)
}

// What a 0 and the number after it stand for.
fn put_run(book: &mut [u8], to: usize, n: u8) -> usize {
    if n == 0 {
        return close_block(book, to);
    }
    put_zeros(book, to, n as usize)
}

// Unpacks at a place of a buffer and returns the place after it.
pub(crate) fn unpack(packed: &[u8], book: &mut [u8], start: usize) -> usize {
    let mut to = start;
    let mut bytes = packed.iter();
    while let Some(byte) = bytes.next() {
        to = match byte {
            0 => put_run(book, to, bytes.next().copied().unwrap_or(0)),
            _ => put_byte(book, to, *byte),
        };
    }
    to
}

// How many zeros stand first, up to the longest run.
fn zeros_of(bytes: &[u8]) -> usize
    ensures { (result ≤ length bytes.now) × (result ≤ 254) }
{
    bytes
        .iter()
        .take(RUN)
        .take_while(|byte| **byte == 0)
        .count()
}

// Puts bytes packed.
pub(crate) fn put_packed(answer: &mut [u8], start: usize, bytes: &[u8]) -> usize {
    let mut to = start;
    let mut rest = bytes;
    while let Some((byte, after)) = rest.split_first() {
        if *byte == 0 {
            let n = zeros_of(after);
            to = put_bytes(answer, to, &[0, n as u8 + 1]);
            rest = &after[n..];
        } else {
            to = put_byte(answer, to, *byte);
            rest = after;
        }
    }
    to
}
