// Fields, whose types are resolved by look-ups in the type book (the Rust's resolvers.rs). The functions whose names end in `_in` take
// a book that was checked once; `resolve_fields` checks it.
#![tactic(auto)]

ghost use Rattle.std.specs.Prelude.{◌≡◌, true, ◌+◌, ◌*◌, ◌≤◌, length};
ghost use Rattle.std.proofs.lemmas.List.Edits.{sets};
ghost use Rattle.type_book.specs.Book.{is_type, fields_of};
ghost use Rattle.type_book_check.specs.Check.{ValidBook};
ghost use Rattle.resolve_field_types.specs.Fields.{check_numbers, fields_from, fields_check, FieldResolved};
ghost use Rattle.type_book_check.specs.Given.{name as by_name};
ghost use Rattle.resolve_field_types.specs.Calls.{records_that_fit, fields_numbers, record_room, field_record, field_records, fields_answer, Filled, root_fields, root_records, given_fields, given_records};

use resolvers::Resolved;
use type_book::block;
use type_book_check::{GivenRoot, LACKING_ROOT, RootCheck};

// The numbers of a field's record.
const RECORD: usize = 4;

// A field whose type is resolved: offset and size as its block says, the block that its type name finds, that block with its
// aliases resolved, and its own block.
#[derive(Clone, Copy)]
pub struct ResolvedField {
    pub offset: u32,
    pub size: u32,
    pub named: u32,
    pub resolved: u32,
    pub field: u32,
}

#[derive(Clone, Copy)]
pub enum FieldAnswer {
    Field(ResolvedField),
    NotFound(u32),
    TooLong,
}

#[derive(Clone, Copy)]
pub enum FieldsCheck {
    Fine,
    NotFound(u32),
    TooLong,
}

// What `resolve_fields` answers.
#[derive(Clone, Copy)]
pub enum FieldsAnswer {
    // The number of fields, each of whose records is stored.
    Done(usize),
    NotFound(u32),
    Refused(u8),
}

// ---- fields

// Resolves the type of field block f.
pub fn resolve_field_in(book: &[u8], index: &[u32], width: u8, f: u32) -> FieldAnswer
    requires { ValidBook book.now }
    ensures { FieldResolved book.now width f result }
{
    let found = resolvers::named_in(book, index, f);
    let Some(named) = found else {
        return FieldAnswer::NotFound(f);
    };
    let answer = resolvers::resolve_alias_in(book, index, width, named);
    match answer {
        Resolved::Base(resolved) => FieldAnswer::Field(ResolvedField {
            offset: block::offset(book, f),
            size: block::size(book, f),
            named,
            resolved,
            field: f,
        }),
        Resolved::NotFound(c) => FieldAnswer::NotFound(c),
        Resolved::TooLong => FieldAnswer::TooLong,
    }
}

// Resolves the first n fields of type block t in order, up to the first that is refused.
fn check_first(book: &[u8], index: &[u32], width: u8, t: u32, n: u32) -> FieldsCheck
    requires { ValidBook book.now × (is_type book.now t ≡ true) × (n ≤ fields_of book.now t) }
    ensures { result ≡ fields_from book.now width (t + 1) n }
{
    for i in 0..n {
        let answer = resolve_field_in(book, index, width, t + 1 + i);
        match answer {
            FieldAnswer::Field(_) => {}
            FieldAnswer::NotFound(c) => return FieldsCheck::NotFound(c),
            FieldAnswer::TooLong => return FieldsCheck::TooLong,
        }
    }
    FieldsCheck::Fine
}

// Resolves all fields of type block t in order, up to the first that is refused.
pub fn check_fields_in(book: &[u8], index: &[u32], width: u8, t: u32) -> FieldsCheck
    requires { ValidBook book.now × (is_type book.now t ≡ true) }
    ensures { check_numbers result ≡ check_numbers (fields_check book.now width t) }
{
    check_first(book, index, width, t, block::fields(book, t))
}

// ---- the call: 1 to 5, then the fields of the root

// How many of n fields have records that fit.
fn fitting(n: u32, room: usize) -> u32
    ensures { result ≡ records_that_fit n room }
{
    room.min(n as usize) as u32
}

// What resolving the fields of type block t answers, with room for that many records. A record that does not fit is refused
// before its field is looked up.
pub fn fields_answer(book: &[u8], index: &[u32], width: u8, t: u32, room: usize) -> FieldsAnswer
    requires { ValidBook book.now × (is_type book.now t ≡ true) }
    ensures { result ≡ fields_answer book.now width t room }
{
    let n = block::fields(book, t);
    let fit = fitting(n, room);
    let check = check_first(book, index, width, t, fit);
    match check {
        FieldsCheck::Fine => {}
        FieldsCheck::NotFound(c) => return FieldsAnswer::NotFound(c),
        FieldsCheck::TooLong => return FieldsAnswer::Refused(8),
    }
    if fit < n {
        return FieldsAnswer::Refused(15);
    }
    FieldsAnswer::Done(n as usize)
}

fn store_field(records: &mut [u32], at: usize, field: ResolvedField)
    requires { at + 4 ≤ length records.old }
    ensures { records.new ≡ sets records.old at (field_record (FieldAnswer.Field field)) }
{
    records[at] = field.offset;
    records[at + 1] = field.size;
    records[at + 2] = field.resolved;
    records[at + 3] = field.field;
}

// Stores the records of the fields of type block t, none of which is refused.
fn store_fields(book: &[u8], index: &[u32], width: u8, t: u32, records: &mut [u32])
    requires { ValidBook book.now × (is_type book.now t ≡ true) × (fields_check book.now width t ≡ FieldsCheck.Fine) × (fields_of book.now t * 4 ≤ length records.old) }
    ensures { records.new ≡ sets records.old 0 (field_records book.now width t) }
{
    for i in 0..block::fields(book, t) {
        let FieldAnswer::Field(field) = resolve_field_in(book, index, width, t + 1 + i) else {
            return;
        };
        store_field(records, i as usize * RECORD, field);
    }
}

// Stores a record of four numbers for each field of type block t. The first pass answers every refusal, the second stores.
pub fn resolve_fields_in(
    book: &[u8],
    index: &[u32],
    width: u8,
    t: u32,
    records: &mut [u32],
) -> FieldsAnswer
    requires { ValidBook book.now × (is_type book.now t ≡ true) }
    ensures { Filled (fields_answer book.now width t (record_room (length records.old))) (field_records book.now width t) records.old result records.new }
{
    let answer = fields_answer(book, index, width, t, records.len() / RECORD);
    if let FieldsAnswer::Done(_) = answer {
        store_fields(book, index, width, t, records);
    }
    answer
}

// `resolve_fields_in` with an index on the stack.
fn fill_fields(book: &[u8], width: u8, t: u32, records: &mut [u32]) -> FieldsAnswer
    requires { ValidBook book.now × (is_type book.now t ≡ true) }
    ensures { Filled (fields_answer book.now width t (record_room (length records.old))) (field_records book.now width t) records.old result records.new }
{
    let mut index = [0u32; 16384];
    type_index::fill_names(book, &mut index);
    resolve_fields_in(book, &index, width, t, records)
}

// Every refusal of `resolve_fields`, with room for that many records and nothing written. The index is the caller's, who may need it again.
pub fn check_fields(
    buffer: &[u8],
    len: usize,
    index: &[u32],
    width: u8,
    root: u64,
    room: usize,
) -> FieldsAnswer
    ensures { fields_numbers result ≡ fields_numbers (root_fields buffer.now len width root room) }
{
    let check = type_book_check::check_root(buffer, len, root);
    match check {
        RootCheck::Root(t) => fields_answer(&buffer[..len], index, width, t, room),
        RootCheck::Refused(n) => FieldsAnswer::Refused(n),
    }
}

// Stores a record of four numbers for each field of the root block, in order: its offset, its size, the block of its resolved type,
// its own block. A refusal leaves the records as they were.
pub fn resolve_fields(
    buffer: &[u8],
    len: usize,
    width: u8,
    root: u64,
    records: &mut [u32],
) -> FieldsAnswer
    ensures { Filled (root_fields buffer.now len width root (record_room (length records.old))) (root_records buffer.now len width root) records.old result records.new }
{
    let check = type_book_check::check_root(buffer, len, root);
    match check {
        RootCheck::Root(t) => fill_fields(&buffer[..len], width, t, records),
        RootCheck::Refused(n) => FieldsAnswer::Refused(n),
    }
}

// `resolve_fields` of a root that is given by its name.
pub fn resolve_fields_named(
    buffer: &[u8],
    len: usize,
    width: u8,
    name: &[u8],
    records: &mut [u32],
) -> FieldsAnswer
    ensures { Filled (given_fields buffer.now len width (by_name name.now) (record_room (length records.old))) (given_records buffer.now len width (by_name name.now)) records.old result records.new }
{
    let check = type_book_check::check_root_named(buffer, len, name);
    match check {
        GivenRoot::Block(t) => fill_fields(&buffer[..len], width, t, records),
        GivenRoot::Lacking => FieldsAnswer::NotFound(LACKING_ROOT),
        GivenRoot::Refused(n) => FieldsAnswer::Refused(n),
    }
}
