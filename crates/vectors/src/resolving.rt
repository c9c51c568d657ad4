// The operations of the crates `resolve_field_types`, `resolve_field_records`, `resolve_read_modify_write` and `resolve_missing_types`, on the
// book that is kept and with lent numbers.
use crate::answer::{Answered, byte, byte_and, not_found, put};
use crate::lent;
use crate::lent::{FILL_NUMBER, put_all_are, put_numbers};
use crate::records::agrees;
use cases_file::input::{byte_at, u16_at, u32_at};
use resolve_field_types::FieldsAnswer;
use resolve_missing_types::Missing;
use resolve_read_modify_write::Rmw;

// The case says how much of scratch and list it lends.
pub(crate) fn run(
    operation: u8,
    input: &[u8],
    book: &[u8],
    len: usize,
    answer: &mut [u8],
) -> usize {
    let mut scratch = lent::scratch();
    let mut list = lent::list();
    let Some(scratch) = scratch.get_mut(..u16_at(input, 5)) else {
        return 0;
    };
    let Some(list) = list.get_mut(..u16_at(input, 7)) else {
        return 0;
    };
    match operation {
        70 => rmw(input, book, len, scratch, answer),
        71 => missing(input, book, len, scratch, list, answer),
        72 => fields(input, book, len, scratch, answer),
        _ => 0,
    }
}

// What the scratch holds after a walk: refusals 1 to 6 leave it as before, all else leaves zeros.
fn scratch_after(refusal: u8) -> u32 {
    match refusal {
        1..=6 => FILL_NUMBER,
        _ => 0,
    }
}

// 1 if the scratch is what the walk with this answer leaves, else 0.
fn put_scratch(answer: &mut [u8], at: usize, scratch: &[u32]) -> usize {
    let left = scratch_after(byte_at(answer, 0));
    put_all_are(answer, at, scratch, left)
}

fn rmw_reply(rmw: Rmw) -> Answered {
    match rmw {
        Rmw::Yes => byte_and(0, 1, 1),
        Rmw::No => byte_and(0, 0, 1),
        Rmw::NotFound(block) => not_found(block),
        Rmw::Refused(n) => byte(n),
    }
}

// The numbers of a lent index. The answers are the same whatever it holds: one walk gets an index that leads nowhere, the other the book's.
const INDEX: usize = 16384;

fn rmw(input: &[u8], book: &[u8], len: usize, scratch: &mut [u32], answer: &mut [u8]) -> usize {
    let root = u32_at(input, 1) as u64;
    let index = [0xffff_ffffu32; INDEX];
    let rmw = resolve_read_modify_write::requires_read_modify_write(
        book,
        len,
        &index,
        byte_at(input, 0),
        root,
        scratch,
    );
    let at = put(answer, rmw_reply(rmw));
    put_scratch(answer, at, scratch)
}

// Zero, and 1 after it if there was room for the whole list, else 0; then how many names were met.
fn missing_reply(missing: Missing) -> Answered {
    match missing {
        Missing::Listed(_, whole, count) => Answered {
            head: 256 * whole as u64,
            head_len: 2,
            value: count as u64,
            value_len: 4,
        },
        Missing::Refused(n) => byte(n),
    }
}

// How many blocks are listed.
fn listed(missing: Missing) -> usize {
    match missing {
        Missing::Listed(n, _, _) => n,
        Missing::Refused(_) => 0,
    }
}

// The blocks listed and the rest of the list, and then the scratch.
fn missing(
    input: &[u8],
    book: &[u8],
    len: usize,
    scratch: &mut [u32],
    list: &mut [u32],
    answer: &mut [u8],
) -> usize {
    let root = u32_at(input, 1) as u64;
    let mut index = [0u32; INDEX];
    type_index_build::build_index(book, len, &mut index);
    let missing = resolve_missing_types::missing_types(
        book,
        len,
        &index,
        byte_at(input, 0),
        root,
        scratch,
        list,
    );
    let at = put(answer, missing_reply(missing));
    let at = put_numbers(answer, at, list, listed(missing));
    put_scratch(answer, at, scratch)
}

// The numbers of n records, of which a recorded answer has at most 4,096: more count as none, though up to 5,000 may be lent.
fn numbers_of(n: usize) -> usize {
    match n {
        0..=4096 => 4 * n,
        _ => 0,
    }
}

fn fields_reply(fields: FieldsAnswer) -> Answered {
    match fields {
        FieldsAnswer::Done(_) => byte(0),
        FieldsAnswer::NotFound(block) => not_found(block),
        FieldsAnswer::Refused(n) => byte(n),
    }
}

// How many numbers are written.
fn recorded(fields: FieldsAnswer) -> usize {
    match fields {
        FieldsAnswer::Done(n) => numbers_of(n),
        _ => 0,
    }
}

// As many numbers as a case lends for 4,096 records, which is what the form with structs is tried with.
const ALL: usize = 16384;

// The records and the rest of their numbers, or an empty answer where the form with structs answers or stores anything else.
fn fields(input: &[u8], book: &[u8], len: usize, records: &mut [u32], answer: &mut [u8]) -> usize {
    let width = byte_at(input, 0);
    let root = u32_at(input, 1) as u64;
    let fields = resolve_field_types::resolve_fields(book, len, width, root, records);
    let at = put(answer, fields_reply(fields));
    let end = put_numbers(answer, at, records, recorded(fields));
    if records.len() == ALL && !agrees(book, len, width, root, fields, records) {
        return 0;
    }
    end
}
