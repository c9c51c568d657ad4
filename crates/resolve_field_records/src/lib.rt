// The fields of a type as the Rust's `resolve_fields` gives them: a lent slice of structs, one for each field of the root block. No function
// that holds the slice decides anything: `resolve_field_types::check_fields`, or `checked_fields` of a root by its name, answers every refusal
// without the records, and then each record is stored.
#![tactic(auto)]

ghost use Rattle.std.specs.Prelude.{◌≡◌, ◌≤◌, length};
ghost use Rattle.type_book_check.specs.Given.{name as by_name};
ghost use Rattle.resolve_field_records.specs.Stored.{Resolvable, AllResolvable, stored_count, resolved_record, record_at, filled_at, StoredIs};
ghost use Rattle.resolve_field_records.specs.Named.{root_block, Checked, checked_fields, GivenStoredIs};

use resolve_field_types::{
    FieldAnswer, FieldsAnswer, check_fields, fields_answer, resolve_field_in,
};
use type_book_check::{GivenRoot, LACKING_ROOT, check_root_named};

// A field whose type is resolved: offset and size as its block says, the block of its type with its aliases resolved, and its own block.
#[repr(C)]
#[derive(Clone, Copy)]
pub struct FieldRecord {
    pub offset: u32,
    pub size: u32,
    pub type_block: u32,
    pub field_block: u32,
}

// How many records an answer stores: a refusal none.
fn count_of(answer: FieldsAnswer) -> usize
    ensures { result ≡ stored_count answer }
{
    match answer {
        FieldsAnswer::Done(n) => n,
        FieldsAnswer::NotFound(_) | FieldsAnswer::Refused(_) => 0,
    }
}

// The index of the book's names, by value.
fn index_of(buffer: &[u8], len: usize) -> [u32; 16384] {
    let mut index = [0u32; 16384];
    if len <= buffer.len() {
        type_index::fill_names(&buffer[..len], &mut index);
    }
    index
}

fn record_of(answer: FieldAnswer) -> FieldRecord
    ensures { result ≡ resolved_record answer }
{
    match answer {
        FieldAnswer::Field(x) => FieldRecord {
            offset: x.offset,
            size: x.size,
            type_block: x.resolved,
            field_block: x.field,
        },
        _ => FieldRecord {
            offset: 0,
            size: 0,
            type_block: 0,
            field_block: 0,
        },
    }
}

// The record of field i of the root.
fn record_at(
    buffer: &[u8],
    len: usize,
    index: &[u32],
    width: u8,
    root: u64,
    i: usize,
) -> FieldRecord
    requires { Resolvable buffer.now len width root i }
    ensures { result ≡ record_at buffer.now len width root i }
{
    let f = root as u32 + 1 + i as u32;
    let answer = resolve_field_in(&buffer[..len], index, width, f);
    record_of(answer)
}

// The first n records are those of the root's fields, the rest as before.
fn fill_records(
    buffer: &[u8],
    len: usize,
    index: &[u32],
    width: u8,
    root: u64,
    n: usize,
    records: &mut [FieldRecord],
)
    requires { AllResolvable buffer.now len width root n × (n ≤ length records.old) }
    ensures { records.new ≡ filled_at buffer.now len width root n records.old }
{
    for i in 0..n {
        records[i] = record_at(buffer, len, index, width, root, i);
    }
}

// Stores a record for each field of the root block, in order. A refusal leaves the records as they were.
pub fn resolve_fields(
    buffer: &[u8],
    len: usize,
    width: u8,
    root: u64,
    records: &mut [FieldRecord],
) -> FieldsAnswer
    ensures { StoredIs buffer.now len width root records.old result records.new }
{
    let index = index_of(buffer, len);
    let names: &[u32] = &index;
    let answer = check_fields(buffer, len, names, width, root, records.len());
    let n = count_of(answer);
    fill_records(buffer, len, names, width, root, n, records);
    answer
}

// ---- a root that is given by its name

// The block that a root stands for; 0 where it stands for none, and then no record is stored.
fn block_of(root: GivenRoot) -> u64
    ensures { result ≡ root_block root }
{
    match root {
        GivenRoot::Block(t) => u64::from(t),
        GivenRoot::Lacking | GivenRoot::Refused(_) => 0,
    }
}

// Every refusal of the fields of a root that was checked, with room for that many records and nothing written.
fn checked_fields(
    buffer: &[u8],
    len: usize,
    index: &[u32],
    width: u8,
    root: GivenRoot,
    room: usize,
) -> FieldsAnswer
    requires { Checked buffer.now len root }
    ensures { result ≡ checked_fields buffer.now len width root room }
{
    match root {
        GivenRoot::Block(t) => fields_answer(&buffer[..len], index, width, t, room),
        GivenRoot::Lacking => FieldsAnswer::NotFound(LACKING_ROOT),
        GivenRoot::Refused(n) => FieldsAnswer::Refused(n),
    }
}

// `resolve_fields` of a root that is given by its name.
pub fn resolve_fields_named(
    buffer: &[u8],
    len: usize,
    width: u8,
    name: &[u8],
    records: &mut [FieldRecord],
) -> FieldsAnswer
    ensures { GivenStoredIs buffer.now len width (by_name name.now) records.old result records.new }
{
    let index = index_of(buffer, len);
    let names: &[u32] = &index;
    let root = check_root_named(buffer, len, name);
    let answer = checked_fields(buffer, len, names, width, root, records.len());
    let n = count_of(answer);
    let t = block_of(root);
    fill_records(buffer, len, names, width, t, n, records);
    answer
}
