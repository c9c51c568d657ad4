// Compares the two forms of resolved fields: records that are structs and records of four numbers.
use crate::lent::FILL_NUMBER;
use resolve_field_records::{FieldRecord, resolve_fields};
use resolve_field_types::FieldsAnswer;

// As many records as a recorded case lends.
const RECORDS: usize = 4096;

fn same_answer(a: FieldsAnswer, b: FieldsAnswer) -> bool {
    match (a, b) {
        (FieldsAnswer::Done(n), FieldsAnswer::Done(m)) => n == m,
        (FieldsAnswer::NotFound(n), FieldsAnswer::NotFound(m)) => n == m,
        (FieldsAnswer::Refused(n), FieldsAnswer::Refused(m)) => n == m,
        _ => false,
    }
}

fn same_record(r: &FieldRecord, numbers: &[u32]) -> bool {
    numbers == [r.offset, r.size, r.type_block, r.field_block].as_slice()
}

fn same_records(records: &[FieldRecord], numbers: &[u32]) -> bool {
    records
        .iter()
        .zip(numbers.chunks(4))
        .all(|(record, four)| same_record(record, four))
}

// Whether the form with structs, lent 4,096 records, gives this answer and stores these numbers, four for each record.
pub(crate) fn agrees(
    book: &[u8],
    len: usize,
    width: u8,
    root: u64,
    answer: FieldsAnswer,
    numbers: &[u32],
) -> bool {
    let filled = FieldRecord {
        offset: FILL_NUMBER,
        size: FILL_NUMBER,
        type_block: FILL_NUMBER,
        field_block: FILL_NUMBER,
    };
    let mut records = [filled; RECORDS];
    let records_answer = resolve_fields(book, len, width, root, &mut records);
    same_answer(records_answer, answer) && same_records(&records, numbers)
}
