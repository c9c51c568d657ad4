// What a leaf puts on the tape: one record, one text, or a refusal.
#![tactic(auto)]

ghost use Rattle.std.specs.Prelude.{◌≡◌, cond, ◌+◌, ◌<◌, take};
ghost use Rattle.type_book.specs.Book.{fields_of, entries_of};
ghost use Rattle.type_category.specs.Category.{category_of};
ghost use Rattle.de_leaves.specs.Leaf.{leaf_at};
ghost use Rattle.de_output.specs.Trace.{From};
ghost use Rattle.de_leaf_output.specs.Leaves.{ends_at, end_byte, form_of, trace_of};

use de_leaves::leaf::LeafValue;
use de_output::{Step, put, put_text, stop};
use enc_float::Real;
use enc_text_decoder::Decoder;
use enc_utf_8::TextEnd;
use tape::record::{BOOL, ENUM, REAL32, REAL64, Record, SIGNED, UNIT, UNSIGNED};
use type_category::type_category::AdsTypeCategory;

pub mod number;

// A type: its block as it was named, the block that its aliases resolve to, and the category of that.
#[derive(Clone, Copy)]
pub struct Typed {
    pub named: u32,
    pub resolved: u32,
    pub category: AdsTypeCategory,
}

// The first n bytes, or all where there are fewer.
fn first(bytes: &[u8], n: usize) -> &[u8]
    ensures { result.now ≡ take n bytes.now }
{
    &bytes[..n.min(bytes.len())]
}

pub(crate) fn bit(b: bool) -> u64
    ensures { result ≡ cond b 1 0 }
{
    u64::from(b)
}

// The number of bytes before a text's end, whether or not a terminator was found.
fn before(end: TextEnd) -> usize
    ensures { result ≡ ends_at end }
{
    let (TextEnd::Terminated(n) | TextEnd::Unterminated(n)) = end;
    n
}

// Byte 1 of a text's record: 1 if a terminator was found, else 0.
fn end_byte(end: TextEnd) -> u8
    ensures { result ≡ end_byte end }
{
    match end {
        TextEnd::Terminated(_) => 1,
        TextEnd::Unterminated(_) => 0,
    }
}

// How a leaf's value goes on the tape: as one record, as a text (byte 1 of its record, its decoder, the number of its bytes), or not at all.
#[derive(Clone, Copy)]
pub enum LeafForm {
    Record(Record),
    Text(u8, Decoder, usize),
    Refused(u8),
}

// The form of a leaf's value.
fn form_of(value: LeafValue) -> LeafForm
    ensures { result ≡ form_of value }
{
    match value {
        LeafValue::Signed(w, b) => LeafForm::Record(Record::new(SIGNED, w, 0, b)),
        LeafValue::Unsigned(w, n) => LeafForm::Record(Record::new(UNSIGNED, w, 0, n)),
        LeafValue::Bool(b) => LeafForm::Record(Record::new(BOOL, 0, 0, bit(b))),
        LeafValue::Single(x) => LeafForm::Record(Record::new(REAL32, 0, 0, Real::Single(x).bits())),
        LeafValue::Double(x) => LeafForm::Record(Record::new(REAL64, 0, 0, Real::Double(x).bits())),
        LeafValue::NanSingle(n) => LeafForm::Record(Record::new(REAL32, 0, 0, n as u64)),
        LeafValue::NanDouble(n) => LeafForm::Record(Record::new(REAL64, 0, 0, n)),
        LeafValue::Text(decoder, end) => LeafForm::Text(end_byte(end), decoder, before(end)),
        LeafValue::Entry(n) => LeafForm::Record(Record::new(ENUM, 0, n as u64, 0)),
        LeafValue::Unit => LeafForm::Record(Record::new(UNIT, 0, 0, 0)),
        LeafValue::Refused(k) => LeafForm::Refused(k),
    }
}

// Writes what a leaf's bytes stand for, after a step, with the block of its type as it was named.
pub fn put_leaf(
    s: Step,
    named: u32,
    value: LeafValue,
    bytes: &[u8],
    tape: &mut [u8],
    text: &mut [u8],
) -> Step
    ensures { From (trace_of named value bytes.now) tape.old text.old s result tape.new text.new }
{
    let form = form_of(value);
    match form {
        LeafForm::Record(r) => put(s, tape, text, r.declaring(named)),
        LeafForm::Text(w, decoder, n) => {
            put_text(s, w, named, decoder, first(bytes, n), tape, text)
        }
        LeafForm::Refused(k) => stop(s, k, 0),
    }
}

// The value of a type that is neither struct nor array.
pub fn leaf(
    s: Step,
    book: &[u8],
    width: u8,
    typed: Typed,
    bytes: &[u8],
    tape: &mut [u8],
    text: &mut [u8],
) -> Step
    requires { (typed.resolved + fields_of book.now typed.resolved + entries_of book.now typed.resolved < 65536) × (typed.category ≡ category_of book.now width typed.resolved) }
    ensures { From (trace_of typed.named (leaf_at book.now width typed.resolved bytes.now) bytes.now) tape.old text.old s result tape.new text.new }
{
    let category = typed.category;
    put_leaf(
        s,
        typed.named,
        de_leaves::leaf::leaf_by(book, width, typed.resolved, category, bytes),
        bytes,
        tape,
        text,
    )
}
