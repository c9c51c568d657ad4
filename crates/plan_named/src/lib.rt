// The plan of a save whose root is given by its name, from nothing too: where our book lacks the root, as an empty book does, the root's own
// definition is the first that is added from the controller's book.
#![tactic(auto)]

ghost use Rattle.std.specs.Prelude.{◌≡◌, ◌≤◌, length, take, None};
ghost use Rattle.type_provider.specs.Find.{find as find_in};
ghost use Rattle.type_book_check.specs.declared.BookCheck.TheVariants.{Valid};
ghost use Rattle.type_book_check.specs.declared.GivenRoot.TheVariants.{Lacking};
ghost use Rattle.type_book_check.specs.Check.{ValidBook, check_book};
ghost use Rattle.type_book_check.specs.Given.{check_given, name as by_name};
ghost use Rattle.plan_adds.specs.Adds.{ours};
ghost use Rattle.plan_save.specs.Call.{PlanDone};
ghost use Rattle.plan_named.specs.Named.{plan_by_name, named_refusal, PlanNamedIs};
ghost use Rattle.plan_named.specs.State.{RootAdded, EndedIs};

use enc_zeros::clear_numbers;
use plan_adds::Added;
use plan_save::{Plan, plan_at, plan_in, their_refusal};
use plan_type_adds::definition;
use resolve_walk::scratch_fits;
use type_book::block::BLOCK;
use type_book_check::{GivenRoot, check_root_named};
use type_cache::{Appended, append};
use type_provider::find;

// The number that stands for a root's name which a book lacks.
const LACKING: u32 = 0xffff_ffff;

// Adds the root's definition from the controller's book to our book, which lacks its name.
fn add_root(buffer: &mut [u8], len: usize, controller: &[u8], name: &[u8]) -> Added
    requires { ValidBook controller.now × (check_book buffer.old len ≡ Valid) × (find_in (take len buffer.old) name.now ≡ None) }
    ensures { RootAdded controller.now name.now buffer.old len result buffer.new }
{
    let found = find(controller, name);
    let Some(n) = found else {
        return Added::NotFound(LACKING, len);
    };
    let answer = append(buffer, len, definition(controller, n));
    match answer {
        Appended::Done(l) => Added::More(l),
        Appended::Refused(_) => Added::Full(len),
    }
}

// An answer without rounds: scratch and index are cleared, as after rounds.
fn ended(plan: Plan, scratch: &mut [u32], index: &mut [u32]) -> Plan
    ensures { EndedIs plan scratch.old index.old result scratch.new index.new }
{
    clear_numbers(scratch);
    clear_numbers(index);
    plan
}

// The plan where both books, the name and the scratch were checked, and our book lacks the name. The root becomes the first block after ours.
fn plan_lacking_in(
    buffer: &mut [u8],
    len: usize,
    controller: &[u8],
    width: u8,
    name: &[u8],
    scratch: &mut [u32],
    index: &mut [u32],
) -> Plan
    requires { ValidBook controller.now × (check_book buffer.old len ≡ Valid) × (find_in (take len buffer.old) name.now ≡ None) × (8192 ≤ length scratch.old) }
    ensures { PlanDone (plan_by_name controller.now width name.now (ours buffer.old len) None) scratch.old index.old result buffer.new scratch.new index.new }
{
    let root = (len / BLOCK) as u32;
    let added = add_root(buffer, len, controller, name);
    match added {
        Added::More(l) => plan_in(buffer, l, controller, width, root, scratch, index),
        Added::NotFound(b, l) => ended(Plan::NotFound(b, l), scratch, index),
        Added::Full(l) => ended(Plan::Refused(15, l), scratch, index),
    }
}

// The plan for a name that our valid book lacks.
fn plan_lacking(
    buffer: &mut [u8],
    len: usize,
    controller: &[u8],
    theirs: usize,
    width: u8,
    name: &[u8],
    scratch: &mut [u32],
    index: &mut [u32],
) -> Plan
    requires { check_given buffer.old len (by_name name.now) ≡ Lacking }
    ensures { PlanNamedIs (named_refusal buffer.old len controller.now theirs name.now scratch.old) buffer.old len controller.now theirs width name.now scratch.old index.old result buffer.new scratch.new index.new }
{
    let refusal = their_refusal(controller, theirs);
    if refusal != 0 {
        return Plan::Refused(refusal, len);
    }
    if !scratch_fits(scratch) {
        return Plan::Refused(6, len);
    }
    plan_lacking_in(
        buffer,
        len,
        &controller[..theirs],
        width,
        name,
        scratch,
        index,
    )
}

// Plans the save of the root of that name, as `plan_save` does for a block. Where our book lacks the name, as the book of no bytes does, the
// root too is added from the controller's book; 7 with 4,294,967,295 if that book lacks it as well.
pub fn plan_save_named(
    buffer: &mut [u8],
    len: usize,
    controller: &[u8],
    theirs: usize,
    width: u8,
    name: &[u8],
    scratch: &mut [u32],
    index: &mut [u32],
) -> Plan
    ensures { PlanNamedIs (named_refusal buffer.old len controller.now theirs name.now scratch.old) buffer.old len controller.now theirs width name.now scratch.old index.old result buffer.new scratch.new index.new }
{
    let check = check_root_named(buffer, len, name);
    match check {
        GivenRoot::Block(t) => plan_at(buffer, len, controller, theirs, width, t, scratch, index),
        GivenRoot::Lacking => plan_lacking(
            buffer, len, controller, theirs, width, name, scratch, index,
        ),
        GivenRoot::Refused(n) => Plan::Refused(n, len),
    }
}
