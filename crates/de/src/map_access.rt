// A struct, union or function block: its fields in order, each after its key.
ghost use Rattle.std.specs.Prelude.{◌≡◌, true, ◌+◌, ◌<◌, length};
ghost use Rattle.type_book_check.specs.Check.{ValidBook};
ghost use Rattle.type_book.specs.Book.{is_type};
ghost use Rattle.resolve_field_plan.specs.Plan.{PlanEntry, Entries, PlanServes};
ghost use Rattle.de_output.specs.Trace.{From};
ghost use Rattle.de.specs.Plans.{PartIs, FieldNumber, field_trace};
ghost use Rattle.de.specs.Walk.{ctx, read_walk, map_of, members_of, member_of};

use crate::deserializer::value;
use crate::reading::{Member, Part, Reading};
use de_leaf_output::Typed;
use de_leaf_output::number::{no_record, number_record};
use de_output::{Step, put, put_frame, stop};
use resolve_field_plan::Planned;
use resolve_field_types::FieldsCheck;
use tape::record::{KEY, MAP, MAP_END, Record};
use type_category_number::category_at;
use validators::{Validity, validate_exact_size};

// The fields of a type (`deserialize_map`), after all of them were resolved once: by whoever gave a plan, or here.
#[cycle(reader)]
pub(crate) fn map(
    s: Step,
    book: &[u8],
    index: &[u32],
    v: Reading,
    plan: &[u64],
    bytes: &[u8],
    tape: &mut [u8],
    text: &mut [u8],
) -> Step
    requires { ValidBook book.now × (is_type book.now v.typed.resolved ≡ true) × PlanServes book.now v.width v.typed.resolved plan.now }
    ensures { From (map_of (read_walk (ctx book.now v.width) v.left) (ctx book.now v.width) v.typed bytes.now) tape.old text.old s result tape.new text.new }
{
    let t = v.typed.resolved;
    let size = type_book::block::size(book, t) as usize;
    let Validity::Valid = validate_exact_size(bytes, size) else {
        return stop(s, 10, 0);
    };
    if 0 < plan.len() {
        return members(s, book, index, v, plan, bytes, tape, text);
    }
    let mut own = [0u64; 256];
    let fields = resolve_field_plan::plan_fields_in(book, index, v.width, t, &mut own);
    match fields {
        FieldsCheck::Fine => members(s, book, index, v, &own, bytes, tape, text),
        FieldsCheck::NotFound(b) => stop(s, 7, b),
        FieldsCheck::TooLong => stop(s, 8, 0),
    }
}

// The map record, the fields and the end record.
#[cycle(reader)]
pub(crate) fn members(
    s: Step,
    book: &[u8],
    index: &[u32],
    v: Reading,
    plan: &[u64],
    bytes: &[u8],
    tape: &mut [u8],
    text: &mut [u8],
) -> Step
    requires { ValidBook book.now × (is_type book.now v.typed.resolved ≡ true) × Entries book.now v.width v.typed.resolved plan.now }
    ensures { From (members_of (read_walk (ctx book.now v.width) v.left) (ctx book.now v.width) v.typed bytes.now) tape.old text.old s result tape.new text.new }
{
    let t = v.typed.resolved;
    let n = type_book::block::fields(book, t);
    let mut here = put_frame(s, tape, text, MAP, v.typed.named, n as u64);
    for i in 0..n {
        let Step::Next(_, _) = here else {
            return here;
        };
        let m = Member {
            f: t + 1 + i,
            entry: resolve_field_plan::entry_at(plan, i),
            width: v.width,
            left: v.left,
        };
        here = member(here, book, index, m, bytes, tape, text);
    }
    put_frame(here, tape, text, MAP_END, 0, 0)
}

// What a field is in the bytes of its struct, by its entry of a plan: 10 where it passes their end.
fn part_of(book: &[u8], index: &[u32], m: Member, bytes: &[u8]) -> Part
    requires { ValidBook book.now × PlanEntry book.now m.width m.f m.entry }
    ensures { PartIs (ctx book.now m.width) m.f (length bytes.now) result }
{
    let found = resolve_field_plan::planned_field(book, index, m.width, m.f, m.entry);
    match found {
        Planned::Field(x) => {
            let from = x.offset as usize;
            let to = from + x.size as usize;
            if to > bytes.len() {
                return Part::Stop(10, 0);
            }
            let category = x.category;
            let typed = Typed {
                named: x.named,
                resolved: x.resolved,
                category,
            };
            Part::Value(typed, from, to)
        }
        Planned::NotFound(b) => Part::Stop(7, b),
        Planned::TooLong => Part::Stop(8, 0),
    }
}

// The record of a field that is a number, by its entry of a plan; or the one of kind 0, which says nothing. It needs no look-up and calls
// nothing that is not compiled into it, so that the loop over the fields keeps its state in registers.
fn number_of(book: &[u8], m: Member, bytes: &[u8]) -> Record
    requires { ValidBook book.now × PlanEntry book.now m.width m.f m.entry }
    ensures { FieldNumber (ctx book.now m.width) m.left m.f bytes.now result }
{
    if m.entry == 0 {
        return no_record();
    }
    if m.left == 0 {
        return no_record();
    }
    let from = type_book::block::offset(book, m.f) as usize;
    let to = from + type_book::block::size(book, m.f) as usize;
    if to > bytes.len() {
        return no_record();
    }
    let category = category_at(((m.entry - 1) % 16) as u32);
    let typed = Typed {
        named: ((m.entry - 1) / 1048576) as u32,
        resolved: ((m.entry - 1) / 16 % 65536) as u32,
        category,
    };
    number_record(book, typed, &bytes[from..to])
}

// A field's value (`next_value_seed`), of any type.
#[cycle(reader)]
pub(crate) fn field(
    s: Step,
    book: &[u8],
    index: &[u32],
    m: Member,
    bytes: &[u8],
    tape: &mut [u8],
    text: &mut [u8],
) -> Step
    requires { ValidBook book.now × PlanEntry book.now m.width m.f m.entry }
    ensures { From (field_trace (read_walk (ctx book.now m.width) m.left) (ctx book.now m.width) bytes.now m.f) tape.old text.old s result tape.new text.new }
{
    let part = part_of(book, index, m, bytes);
    match part {
        Part::Value(typed, from, to) => {
            let v = Reading {
                typed,
                width: m.width,
                left: m.left,
            };
            let none = [0u64; 1];
            let rest = &none[0..0];
            value(s, book, index, v, rest, &bytes[from..to], tape, text)
        }
        Part::Stop(n, b) => stop(s, n, b),
    }
}

// A field: its key (`next_key_seed`), then its value. Most are numbers, which go on the tape without a further call.
#[cycle(reader)]
pub(crate) fn member(
    s: Step,
    book: &[u8],
    index: &[u32],
    m: Member,
    bytes: &[u8],
    tape: &mut [u8],
    text: &mut [u8],
) -> Step
    requires { ValidBook book.now × PlanEntry book.now m.width m.f m.entry }
    ensures { From (member_of (read_walk (ctx book.now m.width) m.left) (ctx book.now m.width) bytes.now m.f) tape.old text.old s result tape.new text.new }
{
    let key = put_frame(s, tape, text, KEY, 0, m.f as u64);
    let number = number_of(book, m, bytes);
    if number.kind != 0 {
        return put(key, tape, text, number);
    }
    field(key, book, index, m, bytes, tape, text)
}
