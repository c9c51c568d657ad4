// The steps of a read: where the next record and the next text byte go, or the refusal that ended it.
#![tactic(auto)]

ghost use Rattle.std.specs.Prelude.{◌≡◌, ◌+◌, ◌-◌, ◌≤◌, leb, length};
ghost use Rattle.enc_utf_8.specs.Buffer.{Wrote};
ghost use Rattle.tape.specs.Record.{new_record, declaring, record_bytes};
ghost use Rattle.enc_text_decoder.specs.Text.{decoded_by};
ghost use Rattle.de_output.specs.Answer.{read_refusal, Finished};
ghost use Rattle.de_output.specs.Trace.{From, Halts, one, rec, text as text_event, text_record};

use enc_text_decoder::Decoder;
use enc_zeros::clear_bytes;
use tape::record::{LENGTH, Record, TEXT};

#[derive(Clone, Copy)]
pub enum Step {
    // The next place on the tape, and in the text.
    Next(usize, usize),
    // Document 01's number, and the block that 7 carries (else 0).
    Stop(u8, u32),
}

// What a read answers: the number of records and of text bytes; or document 01's number, with the block that 7 carries.
#[derive(Clone, Copy)]
pub enum ReadAnswer {
    Done(usize, usize),
    NotFound(u32),
    Refused(u8),
}

// A refusal, after a step: an earlier one is handed on.
pub fn stop(s: Step, n: u8, b: u32) -> Step
    ensures { Halts s n b result }
{
    match s {
        Step::Next(_, _) => Step::Stop(n, b),
        Step::Stop(_, _) => s,
    }
}

// Writes a record, after a step: a refusal is handed on.
pub fn put(s: Step, tape: &mut [u8], text: &mut [u8], r: Record) -> Step
    ensures { From (one (rec r)) tape.old text.old s result tape.new text.new }
{
    let Step::Next(at, from) = s else {
        return s;
    };
    match tape::record::put(tape, at, r) {
        Some(n) => Step::Next(n, from),
        None => Step::Stop(15, 0),
    }
}

// Writes a frame record, after a step: that of an array or a map, with the block of its type as it was named, of a key or an end, with 0;
// and with A, and nothing else.
pub fn put_frame(s: Step, tape: &mut [u8], text: &mut [u8], kind: u8, declared: u32, a: u64) -> Step
    ensures { From (one (rec (declaring declared (new_record kind 0 a 0)))) tape.old text.old s result tape.new text.new }
{
    put(
        s,
        tape,
        text,
        Record::new(kind, 0, a, 0).declaring(declared),
    )
}

// Whether the tape has room for a record at this place.
fn has_room(tape: &[u8], at: usize) -> bool
    ensures { result ≡ leb (at + 24) (length tape.now) }
{
    at <= tape.len() && LENGTH <= tape.len() - at
}

// Writes a text and its record, after a step: a refusal is handed on. Room for the record is asked for first, so that a text is
// written only with its record. The width and the declared number go into the record as they are given.
pub fn put_text(
    s: Step,
    width: u8,
    declared: u32,
    decoder: Decoder,
    bytes: &[u8],
    tape: &mut [u8],
    text: &mut [u8],
) -> Step
    ensures { From (one (text_event width declared (decoded_by decoder bytes.now))) tape.old text.old s result tape.new text.new }
{
    let Step::Next(at, from) = s else {
        return s;
    };
    if !has_room(tape, at) {
        return Step::Stop(15, 0);
    }
    let Some(to) = enc_text_decoder::decode(decoder, bytes, text, from) else {
        return Step::Stop(15, 0);
    };
    match text_record(tape, at, width, declared, from, to) {
        Some(n) => Step::Next(n, to),
        None => Step::Stop(15, 0),
    }
}

// The record of a text that stands from `from` up to `to`.
fn text_record(
    tape: &mut [u8],
    at: usize,
    width: u8,
    declared: u32,
    from: usize,
    to: usize,
) -> Option<usize>
    requires { from ≤ to }
    ensures { Wrote (record_bytes (text_record width declared from (to - from))) tape.old at result tape.new }
{
    tape::record::put(
        tape,
        at,
        Record {
            kind: TEXT,
            width,
            spare: 0,
            declared,
            a: from as u64,
            b: (to - from) as u64,
        },
    )
}

// A refusal as an answer.
fn refusal_of(n: u8, b: u32) -> ReadAnswer
    ensures { result ≡ read_refusal n b }
{
    if n == 7 {
        return ReadAnswer::NotFound(b);
    }
    ReadAnswer::Refused(n)
}

// The answer after the last step: a refusal leaves both buffers zero.
pub fn finish(s: Step, tape: &mut [u8], text: &mut [u8]) -> ReadAnswer
    ensures { Finished s tape.old text.old result tape.new text.new }
{
    match s {
        Step::Next(n, m) => ReadAnswer::Done(n / LENGTH, m),
        Step::Stop(k, b) => {
            clear_bytes(tape);
            clear_bytes(text);
            refusal_of(k, b)
        }
    }
}
