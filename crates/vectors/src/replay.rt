// Replays a file of recorded cases, page by page.
ghost use Rattle.std.specs.Prelude.{◌≡◌, ◌≤◌, length, IfOk};

use crate::lent::FILL;
use crate::report::Tally;
use crate::{operation, report};
use cases_file::case::{HEAD, case_of, length_of, recorded_of};
use cases_file::input::{byte_at, first, from, u16_at};
use std::io::Read;
use std::rt::Files;
use std::{fs, io};

// Room for the longest recorded book, of 9,216 blocks.
const BOOK: usize = 4718592;

// Room for the longest page, and for the buffers and the answer of a case.
const PAGE: usize = 65536;

// Reads until the buffer is full or the file ends, and returns how many bytes it put at the start of the buffer.
fn read_full<F: Read>(file: &mut F, buffer: &mut [u8]) -> io::Result<usize>
    ensures { IfOk result (λ n. n ≤ length buffer.new) }
{
    let mut done = 0;
    while done < buffer.len() {
        let n = file.read(&mut buffer[done..])?;
        if n == 0 {
            break;
        }
        done += n;
    }
    Ok(done)
}

// Reads the next page into `page` and returns its length: 0 at the end of the file, and where a page is cut short or
// longer than the buffer.
fn read_page<F: Read>(file: &mut F, page: &mut [u8]) -> io::Result<usize> {
    let mut head = [0u8; 4];
    if read_full(file, &mut head)? < 4 {
        return Ok(0);
    }
    let n = u32::from_le_bytes(head) as usize;
    let Some(page) = page.get_mut(..n) else {
        return Ok(0);
    };
    if read_full(file, page)? == n {
        Ok(n)
    } else {
        Ok(0)
    }
}

// Zeros for the book that is kept. The length is what lending the array as a slice needs.
pub(crate) fn book_buffer() -> [u8; BOOK]
    ensures { 4718592 ≡ length result }
{
    [0; BOOK]
}

// The length is what lending the array as a slice needs.
fn page_buffer() -> [u8; PAGE]
    ensures { 65536 ≡ length result }
{
    [0; PAGE]
}

// Runs a case's operation on a filled buffer of the length that the case asks for, and compares the answer with the recorded
// one.
fn agrees(
    case: &[u8],
    recorded: &[u8],
    book: &mut [u8],
    len: usize,
    work: &mut [u8],
    answer: &mut [u8],
) -> bool {
    let Some(out) = work.get_mut(..u16_at(case, 1)) else {
        return false;
    };
    out.fill(FILL);
    let n = operation::run(byte_at(case, 0), from(case, HEAD), book, len, out, answer);
    recorded == first(answer, n)
}

fn run_case<R: Print>(
    rt: &R,
    case: &[u8],
    recorded: &[u8],
    book: &mut [u8],
    work: &mut [u8],
    answer: &mut [u8],
    tally: Tally,
) -> io::Result<Tally> {
    let len = tally.book;
    let agrees = agrees(case, recorded, book, len, work, answer);
    if !agrees && tally.differences == 0 {
        report::difference(rt, case, recorded, tally)?;
    }
    Ok(tally.after(agrees, operation::book_after(byte_at(case, 0), len, answer)))
}

// All the cases of a page.
fn run_page<R: Print>(
    rt: &R,
    page: &[u8],
    book: &mut [u8],
    work: &mut [u8],
    answer: &mut [u8],
    start: Tally,
) -> io::Result<Tally> {
    let mut tally = start;
    let mut rest = page;
    while !rest.is_empty() {
        tally = run_case(
            rt,
            case_of(rest),
            recorded_of(rest),
            book,
            work,
            answer,
            tally,
        )?;
        rest = from(rest, length_of(rest));
    }
    Ok(tally)
}

// All the pages of an open file. Nothing says that a file ends, so the loop has a number of turns that no file uses up.
fn run_pages<R: Print, F: Read>(
    rt: &R,
    file: &mut F,
    page: &mut [u8],
    book: &mut [u8],
    work: &mut [u8],
    answer: &mut [u8],
) -> io::Result<Tally> {
    let mut tally = Tally::default();
    for _ in 0..u32::MAX {
        let n = read_page(file, page)?;
        if n == 0 {
            break;
        }
        tally = run_page(rt, first(page, n), book, work, answer, tally)?;
    }
    Ok(tally)
}

// Replays the cases of a file of the folder and writes how many there were, and how many differ.
pub(crate) fn file<R: Files + Print>(rt: &R, name: &str, book: &mut [u8]) -> io::Result<()> {
    let mut file = fs::open(rt, name)?;
    let mut page = page_buffer();
    let mut work = page_buffer();
    let mut answer = page_buffer();
    let tally = run_pages(rt, &mut file, &mut page, book, &mut work, &mut answer)?;
    report::total(rt, name, tally)
}
