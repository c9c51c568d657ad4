// The sum that ends each block of a book.
use crate::answer::put_u32;
use cases_file::input::{first, from};

// Where a block has its sum.
pub(crate) const SUM: usize = 508;

fn sum_of(part: &[u8]) -> u32 {
    part.iter()
        .fold(0u32, |sum, byte| sum.wrapping_add(*byte as u32))
}

// Makes the sum of the block at a place right, and returns the place after the block.
pub(crate) fn put_sum(book: &mut [u8], block: u32) -> usize {
    let at = block as usize;
    let sum = sum_of(first(from(book, at), SUM));
    put_u32(book, at + SUM, sum)
}
