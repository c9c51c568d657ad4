// The operation of the crate ser, on the book that is kept.
use crate::answer::{Answered, byte, not_found, put, put_bytes};
use crate::lent;
use crate::packing::unpack;
use cases_file::input::{byte_at, first, from, u16_at, u32_at};
use ser::WriteAnswer;

fn reply_of(write: WriteAnswer) -> Answered {
    match write {
        WriteAnswer::Done => byte(0),
        WriteAnswer::NotFound(block) => not_found(block),
        WriteAnswer::Refused(n) => byte(n),
    }
}

// The case's image, then its text, and then its tape, packed.
fn image_of(input: &[u8]) -> &[u8] {
    first(from(input, 9), u16_at(input, 5))
}

fn text_of(input: &[u8]) -> &[u8] {
    first(from(from(input, 9), u16_at(input, 5)), u16_at(input, 7))
}

fn packed_of(input: &[u8]) -> &[u8] {
    from(from(from(input, 9), u16_at(input, 5)), u16_at(input, 7))
}

fn written<'a>(
    input: &'a [u8],
    book: &'a [u8],
    len: usize,
    tape: &[u8],
    out: &mut [u8],
) -> WriteAnswer {
    let width = byte_at(input, 0);
    let root = u32_at(input, 1) as u64;
    let image = image_of(input);
    ser::serializer::write(book, len, width, root, image, tape, text_of(input), out)
}

// The answer, and all of the output after it.
pub(crate) fn write<'a>(
    input: &'a [u8],
    book: &'a [u8],
    len: usize,
    out: &mut [u8],
    answer: &mut [u8],
) -> usize {
    let mut tape = lent::tape();
    let n = unpack(packed_of(input), &mut tape, 0);
    let at = put(
        answer,
        reply_of(written(input, book, len, first(&tape, n), out)),
    );
    put_bytes(answer, at, out)
}
