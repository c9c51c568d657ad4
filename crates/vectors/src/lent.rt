// The buffers that are lent to calls on books. Every byte of them is A5h before a call, and what a call leaves of them is compared.
ghost use Rattle.std.specs.Prelude.{◌≡◌, length};

use crate::answer::{put_byte, put_u32};

pub(crate) const FILL: u8 = 0xa5;

pub(crate) const FILL_NUMBER: u32 = 0xa5a5_a5a5;

// More numbers than the 8,192 of scratch and the 4,096 of the list that a walk needs.
const SCRATCH: usize = 20000;

const LIST: usize = 5000;

const TAPE: usize = 65520;

const TEXT: usize = 12288;

// The length is what lending an array as a slice needs, here and below.
pub(crate) fn scratch() -> [u32; SCRATCH]
    ensures { 20000 ≡ length result }
{
    [FILL_NUMBER; SCRATCH]
}

pub(crate) fn list() -> [u32; LIST]
    ensures { 5000 ≡ length result }
{
    [FILL_NUMBER; LIST]
}

pub(crate) fn tape() -> [u8; TAPE]
    ensures { 65520 ≡ length result }
{
    [FILL; TAPE]
}

pub(crate) fn text() -> [u8; TEXT]
    ensures { 12288 ≡ length result }
{
    [FILL; TEXT]
}

fn put_each(answer: &mut [u8], at: usize, numbers: &[u32]) -> usize {
    let mut to = at;
    for number in numbers {
        to = put_u32(answer, to, *number);
    }
    to
}

// 1 if every item is the value, else 0.
pub(crate) fn put_all_are<T: Copy + PartialEq>(
    answer: &mut [u8],
    at: usize,
    items: &[T],
    value: T,
) -> usize {
    put_byte(answer, at, items.iter().all(|item| *item == value) as u8)
}

// At most the first n numbers, and 1 if the rest of them is as before, else 0.
pub(crate) fn put_numbers(answer: &mut [u8], at: usize, numbers: &[u32], n: usize) -> usize {
    let (written, rest) = numbers.split_at(n.min(numbers.len()));
    let to = put_each(answer, at, written);
    put_all_are(answer, to, rest, FILL_NUMBER)
}
