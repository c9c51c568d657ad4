// The operations on a type book that answer with a number, by their numbers. The book is kept in a buffer from case to case:
// `len` is its length there.
use crate::answer::{Answered, byte, byte_and, not_found, number, put_byte, put_u32};
use crate::packing::unpack;
use crate::sums::{SUM, put_sum};
use cases_file::input::{byte_at, first, from, u32_at, u64_at};
use resolvers::Resolution;
use type_book_check::RootCheck;
use type_category::type_category::AdsTypeCategory;

pub(crate) fn run(operation: u8, input: &[u8], book: &mut [u8], len: usize) -> Answered {
    match operation {
        64 => keep(input, book),
        65 => byte(refusal_of_root(type_book_check::check_root(book, len, u64_at(input, 0)))),
        66 => byte(changed(input, book, len)),
        67 => number(
            type_category_number::number(category(input, first(book, len))) as u64,
            1,
        ),
        68 => resolution(resolvers::resolve_alias(
            book,
            len,
            byte_at(input, 0),
            u32_at(input, 1) as u64,
        )),
        69 => resolution(resolvers::resolve_indirection(
            book,
            len,
            byte_at(input, 0),
            u32_at(input, 1) as u64,
        )),
        _ => Answered::default(),
    }
}

// Puts packed bytes at a place of the kept book, which ends after them.
fn keep(input: &[u8], book: &mut [u8]) -> Answered {
    let n = unpack(from(input, 4), book, u32_at(input, 0) as usize);
    number(n as u64, 4)
}

fn refusal_of_root(check: RootCheck) -> u8 {
    match check {
        RootCheck::Root(_) => 0,
        RootCheck::Refused(n) => n,
    }
}

// The check of the book with one byte changed, and where that is asked for its block's sum made right; after it the book is as before.
fn changed(input: &[u8], book: &mut [u8], len: usize) -> u8 {
    let place = u32_at(input, 0) as usize;
    let block = u32_at(input, 0) / 512 * 512;
    let sum_at = block as usize + SUM;
    let old = byte_at(book, place);
    let sum = u32_at(book, sum_at);
    put_byte(book, place, byte_at(input, 4));
    if byte_at(input, 5) == 1 {
        put_sum(book, block);
    }
    let check = type_book_check::check_book(book, len);
    put_u32(book, sum_at, sum);
    put_byte(book, place, old);
    type_book_check::refusal_of(check)
}

fn category(input: &[u8], book: &[u8]) -> AdsTypeCategory {
    AdsTypeCategory::determine(book, byte_at(input, 0), u32_at(input, 1))
}

fn resolution(resolution: Resolution) -> Answered {
    match resolution {
        Resolution::Block(block) => byte_and(0, block as u64, 4),
        Resolution::NotFound(block) => not_found(block),
        Resolution::Refused(n) => byte(n),
    }
}
