// The operations by their numbers. tools/case_file.py lists them with their inputs and answers.
use crate::answer::put_bytes;
use crate::{answer, books, encodings, groups, numbers, reads, resolving, writes};
use cases_file::input::{first, u32_at};

// The operation that makes the kept book. Its answer is the book's length.
const KEEP: u8 = 64;

// Puts the answer of an operation at the start of `answer` and returns its length. `book` keeps a type book of `len` bytes
// from case to case. The buffer `out` that a case lends is empty where the operation takes none. An operation that is not there
// answers the lent buffer as it is, and one past the last nothing. Each number stands once, beside what it calls.
pub(crate) fn run(
    operation: u8,
    input: &[u8],
    book: &mut [u8],
    len: usize,
    out: &mut [u8],
    answer: &mut [u8],
) -> usize {
    let reply = match operation {
        14 => return encodings::items(input, answer),
        0..=16 => encodings::run(operation, input, out),
        17..=31 => groups::run(operation, input, first(book, len)),
        32..=63 => numbers::run(operation, input, out),
        KEEP..=69 => books::run(operation, input, book, len),
        70..=72 => return resolving::run(operation, input, book, len, answer),
        73 => return reads::read(input, book, len, answer),
        74 => return writes::write(input, book, len, out, answer),
        _ => return 0,
    };
    let at = answer::put(answer, reply);
    put_bytes(answer, at, out)
}

// The length of the kept book after an operation.
pub(crate) fn book_after(operation: u8, len: usize, answer: &[u8]) -> usize {
    if operation == KEEP {
        return u32_at(answer, 0) as usize;
    }
    len
}
