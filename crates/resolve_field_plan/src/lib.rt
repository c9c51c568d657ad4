// The fields of a type, resolved once: a plan keeps one number for each field, the block of its type as named and as resolved, and that
// type's category, so that a type that is read many times is looked up once. A type that several fields have is resolved once, too.
#![tactic(auto)]

ghost use Rattle.std.specs.Prelude.{◌≡◌, true, ◌<◌, get_or, set, Some};
ghost use Rattle.type_book.specs.Book.{is_type, type_name_of};
ghost use Rattle.type_provider.specs.Find.{find};
ghost use Rattle.type_book_check.specs.Check.{ValidBook};
ghost use Rattle.resolve_field_plan.specs.Plan.{plan_entry_of, PlanEntry, PlannedFieldIs, FieldPlanIs, Earlier, Recent};

use resolve_field_types::FieldsCheck;
use resolvers::Resolved;
use type_book::block;
use type_category::type_category::AdsTypeCategory;
use type_category_number::{category_at, number};

// A field whose type is resolved: offset and size as its block says, its type's block as named and with aliases resolved, the
// category of that.
#[derive(Clone, Copy)]
pub struct PlannedField {
    pub offset: u32,
    pub size: u32,
    pub named: u32,
    pub resolved: u32,
    pub category: AdsTypeCategory,
}

#[derive(Clone, Copy)]
pub enum Planned {
    Field(PlannedField),
    // The block whose type name is not in the book.
    NotFound(u32),
    // More look-ups than allowed.
    TooLong,
}

// Field block f, whose type name finds the alias at block `named`.
fn plan_alias(book: &[u8], index: &[u32], width: u8, f: u32, named: u32) -> Planned
    requires { ValidBook book.now × (find book.now (type_name_of book.now f) ≡ Some named) }
    ensures { PlannedFieldIs book.now width f result }
{
    let answer = resolvers::resolve_alias_in(book, index, width, named);
    match answer {
        Resolved::Base(resolved) => Planned::Field(PlannedField {
            offset: block::offset(book, f),
            size: block::size(book, f),
            named,
            resolved,
            category: AdsTypeCategory::determine(book, width, resolved),
        }),
        Resolved::NotFound(b) => Planned::NotFound(b),
        Resolved::TooLong => Planned::TooLong,
    }
}

// Field block f, whose type name finds block `named`. Most types are no alias: their category is determined once.
fn plan_named(book: &[u8], index: &[u32], width: u8, f: u32, named: u32) -> Planned
    requires { ValidBook book.now × (find book.now (type_name_of book.now f) ≡ Some named) }
    ensures { PlannedFieldIs book.now width f result }
{
    let category = AdsTypeCategory::determine(book, width, named);
    if resolvers::goes_on(category, false) {
        return plan_alias(book, index, width, f, named);
    }
    Planned::Field(PlannedField {
        offset: block::offset(book, f),
        size: block::size(book, f),
        named,
        resolved: named,
        category,
    })
}

// Resolves the type of field block f, and says its category.
fn plan_field(book: &[u8], index: &[u32], width: u8, f: u32) -> Planned
    requires { ValidBook book.now }
    ensures { PlannedFieldIs book.now width f result }
{
    let found = resolvers::named_in(book, index, f);
    let Some(named) = found else {
        return Planned::NotFound(f);
    };
    plan_named(book, index, width, f, named)
}

// Field block f, by its entry of a plan; without an entry (0) it is resolved here.
pub fn planned_field(book: &[u8], index: &[u32], width: u8, f: u32, entry: u64) -> Planned
    requires { ValidBook book.now × PlanEntry book.now width f entry }
    ensures { PlannedFieldIs book.now width f result }
{
    if entry == 0 {
        return plan_field(book, index, width, f);
    }
    Planned::Field(PlannedField {
        offset: block::offset(book, f),
        size: block::size(book, f),
        named: ((entry - 1) / 1048576) as u32,
        resolved: ((entry - 1) / 16 % 65536) as u32,
        category: category_at(((entry - 1) % 16) as u32),
    })
}

// A field's entry. Past the plan's end there is none.
pub fn entry_at(plan: &[u64], i: u32) -> u64
    ensures { result ≡ get_or plan.now i 0 }
{
    plan.get(i as usize).copied().unwrap_or(0)
}

// Stores the i-th field's entry, if the plan is long enough.
fn note(plan: &mut [u64], i: u32, field: PlannedField)
    requires { (field.named < 65536) × (field.resolved < 65536) }
    ensures { plan.new ≡ set plan.old i (plan_entry_of field) }
{
    let category = field.category;
    if (i as usize) < plan.len() {
        let blocks = field.named as u64 * 65536 + field.resolved as u64;
        plan[i as usize] = 1 + blocks * 16 + number(category) as u64;
    }
}

// The slots in which a plan in the making remembers which field was the last of some types.
const SLOTS: usize = 32;

// The entry of an earlier field whose type was named at that block, of the first i; 0 where none is remembered. What `last` holds is only a
// hint: the entry that it leads to says itself which type it is of.
fn recent(plan: &[u64], last: &[u32], i: u32, named: u32) -> u64
    ensures { Recent plan.now i named result }
{
    let Some(&j) = last.get(named as usize % SLOTS) else {
        return 0;
    };
    if j >= i {
        return 0;
    }
    let entry = entry_at(plan, j);
    if entry != 0 && (entry - 1) / 1048576 == u64::from(named) {
        return entry;
    }
    0
}

// Remembers field i as the last of its type.
fn remember(last: &mut [u32], named: u32, i: u32) {
    if let Some(field) = last.get_mut(named as usize % SLOTS) {
        *field = i;
    }
}

// Resolves the type of field block f, after i fields whose entries the plan has.
fn plan_next(
    book: &[u8],
    index: &[u32],
    width: u8,
    f: u32,
    i: u32,
    plan: &[u64],
    last: &[u32],
) -> Planned
    requires { ValidBook book.now × Earlier book.now width i plan.now }
    ensures { PlannedFieldIs book.now width f result }
{
    let found = resolvers::named_in(book, index, f);
    let Some(named) = found else {
        return Planned::NotFound(f);
    };
    let entry = recent(plan, last, i, named);
    if entry == 0 {
        return plan_named(book, index, width, f, named);
    }
    Planned::Field(PlannedField {
        offset: block::offset(book, f),
        size: block::size(book, f),
        named,
        resolved: (((entry - 1) / 16) % 65536) as u32,
        category: category_at(((entry - 1) % 16) as u32),
    })
}

// Resolves all fields of type block t in order, up to the first that is refused, and stores their entries.
pub fn plan_fields_in(
    book: &[u8],
    index: &[u32],
    width: u8,
    t: u32,
    plan: &mut [u64],
) -> FieldsCheck
    requires { ValidBook book.now × (is_type book.now t ≡ true) }
    ensures { FieldPlanIs book.now width t plan.old result plan.new }
{
    let mut last = [0u32; SLOTS];
    for i in 0..block::fields(book, t) {
        let found = plan_next(book, index, width, t + 1 + i, i, plan, &last);
        match found {
            Planned::Field(x) => {
                note(plan, i, x);
                remember(&mut last, x.named, i);
            }
            Planned::NotFound(b) => return FieldsCheck::NotFound(b),
            Planned::TooLong => return FieldsCheck::TooLong,
        }
    }
    FieldsCheck::Fine
}
