// The plan of a save: which types our book lacks is asked, they are added from the controller's book, and it is asked again, until none
// lacks; then read-modify-write is decided. One call makes the whole list of asks and adds, so none can be left out.
#![tactic(auto)]

ghost use Rattle.std.specs.Prelude.{◌≡◌, true, ◌≤◌, ◌<◌, ◌-◌, length, take};
ghost use Rattle.type_book.specs.Book.{is_type};
ghost use Rattle.enc_number.specs.Answer.{refusal_of};
ghost use Rattle.type_book_check.specs.declared.BookCheck.TheVariants.{Valid};
ghost use Rattle.type_book_check.specs.Check.{ValidBook, check_book, book_numbers, check_root};
ghost use Rattle.type_book_check.specs.declared.RootCheck.TheVariants.{Root};
ghost use Rattle.type_index.specs.Trust.{Trusted};
ghost use Rattle.resolve_walk.specs.Walk.{walk_of};
ghost use Rattle.resolve_read_modify_write.specs.Calls.{rmw_answer};
ghost use Rattle.plan_save.specs.Rounds.{swept_from, plan_from};
ghost use Rattle.plan_adds.specs.Adds.{ours};
ghost use Rattle.plan_adds.specs.State.{Ready};
ghost use Rattle.plan_save.specs.Call.{plan_refusal, PlanDone, PlanIs};
ghost use Rattle.plan_save.specs.State.{half_of, Prepared, says_no, ListedIs, AskedIs, AfterAdds, AddedRound, RoundIs, PlannedIs};

use enc_zeros::clear_numbers;
use plan_adds::{AddBy, Added, add_all};
use plan_type_adds::mark_known;
use resolve_missing_types::Missing;
use resolve_read_modify_write::Rmw;
use resolve_walk::scratch_fits;
use std::ops::ControlFlow;
use type_book::block;
use type_book_check::{RootCheck, check_book, check_root, refusal_of};
use type_index::{Trust, fill_names};
use type_index_held::fill_held;

// The rounds at most, so also the asks. They suffice, whatever the books hold (the law `plan-few` of plan_decides).
const ROUNDS: u32 = 18;

// The rounds at the end in which the whole book is swept.
const SWEEP_ALL: u32 = 2;

// What `plan_save` answers, always with the length of our book then.
#[derive(Clone, Copy)]
pub enum Plan {
    // Read the bytes, alter, and write them back.
    Yes(usize),
    // Send a fresh image.
    No(usize),
    // 7, with the block whose type name is in neither book.
    NotFound(u32, usize),
    // Any other refusal, by document 01's number.
    Refused(u8, usize),
}

// ---- rounds

// Whether read-modify-write answers "no": every type that the root is made of is in our book then, and none keeps state. The index of our book is
// made here, and serves the list too.
fn is_no(book: &[u8], index: &mut [u32], width: u8, root: u32, scratch: &mut [u32]) -> bool
    requires { ValidBook book.now × (is_type book.now root ≡ true) × (8192 ≤ length scratch.old) }
    ensures { result ≡ says_no (rmw_answer true book.now width root) }
{
    fill_names(book, index);
    let answer = resolve_read_modify_write::requires_read_modify_write_in(
        book, index, width, root, scratch,
    );
    matches!(answer, Rmw::No)
}

// Asks for the list of the missing types: how many blocks are listed; 9 or 8 where the list is not whole.
fn ask_lists(
    book: &[u8],
    index: &[u32],
    width: u8,
    root: u32,
    scratch: &mut [u32],
    list: &mut [u32],
) -> Result<usize, u8>
    requires { ValidBook book.now × (is_type book.now root ≡ true) × (8192 ≤ length scratch.old) × (4096 ≤ length list.old) }
    ensures { ListedIs (walk_of book.now width root) result list.new }
{
    let missing = resolve_missing_types::missing_types_in(book, index, width, root, scratch, list);
    match missing {
        Missing::Listed(n, whole, count) => {
            if whole {
                return Ok(n);
            }
            if count == 4097 {
                return Err(9);
            }
            Err(8)
        }
        Missing::Refused(k) => Err(k),
    }
}

// Asks for the missing types of the root: how many blocks are listed, where some type may keep state; nothing where nothing is missing and no type
// keeps any; 9 or 8 where the list is not whole. Read-modify-write comes first: its walk ends at the first name that our book lacks, and where it
// answers "no" it is the only one.
fn ask(
    book: &[u8],
    index: &mut [u32],
    width: u8,
    root: u32,
    scratch: &mut [u32],
    list: &mut [u32],
) -> Result<Option<usize>, u8>
    requires { ValidBook book.now × (is_type book.now root ≡ true) × (8192 ≤ length scratch.old) × (4096 ≤ length list.old) }
    ensures { AskedIs book.now width (walk_of book.now width root) result list.new }
{
    if is_no(book, index, width, root, scratch) {
        return Ok(None);
    }
    let n = ask_lists(book, index, width, root, scratch, list)?;
    Ok(Some(n))
}

// What follows from the adds of a round: another round, with the length of our book, or the answer.
fn after_adds(added: Added) -> ControlFlow<Plan, usize>
    ensures { AfterAdds added result }
{
    match added {
        Added::More(l) => ControlFlow::Continue(l),
        Added::NotFound(b, l) => ControlFlow::Break(Plan::NotFound(b, l)),
        Added::Full(l) => ControlFlow::Break(Plan::Refused(15, l)),
    }
}

// The adds of a round with a sweep from a block on, and what follows from them. The first half of the index is of the controller's book.
fn add_round(
    buffer: &mut [u8],
    len: usize,
    controller: &[u8],
    index: &[u32],
    by: AddBy,
    known: &mut [u8],
    list: &[u32],
    n: usize,
) -> ControlFlow<Plan, usize>
    requires { ValidBook controller.now × Trusted controller.now (half_of index.now) by.trust × Ready controller.now buffer.old len known.old × (n ≤ length list.now) }
    ensures { AddedRound controller.now by.width by.from (take n list.now) buffer.old len result buffer.new known.new }
{
    let half = index.len() / 2;
    after_adds(add_all(buffer, len, controller, &index[..half], by, known, list, n))
}

// One ask, and what follows from it: the answer, where nothing is missing; else the adds, with a sweep from a block on. The first half of the
// index is of the controller's book, the other half of ours.
fn one_round(
    buffer: &mut [u8],
    len: usize,
    controller: &[u8],
    index: &mut [u32],
    by: AddBy,
    known: &mut [u8],
    root: u32,
    scratch: &mut [u32],
    list: &mut [u32],
) -> ControlFlow<Plan, usize>
    requires { ValidBook controller.now × Trusted controller.now (half_of index.old) by.trust × Ready controller.now buffer.old len known.old × (is_type (take len buffer.old) root ≡ true) × (8192 ≤ length scratch.old) × (4096 ≤ length list.old) }
    ensures { RoundIs controller.now by.width root buffer.old len by.from result buffer.new known.new index.new by.trust }
{
    let half = index.len() / 2;
    let asked = ask(
        &buffer[..len],
        &mut index[half..],
        by.width,
        root,
        scratch,
        list,
    );
    match asked {
        Ok(None) => ControlFlow::Break(Plan::No(len)),
        Err(k) => ControlFlow::Break(Plan::Refused(k, len)),
        Ok(Some(n)) => {
            if n == 0 {
                return ControlFlow::Break(Plan::Yes(len));
            }
            add_round(buffer, len, controller, index, by, known, list, n)
        }
    }
}

// The block from which the types are swept, by the rounds that are left after this one: the first new one, so that only what is needed is added.
// But where types of ours alternate with lacking ones a round finds just one more; so in the end the whole book is swept.
fn swept_from(book: &[u8], left: u32) -> u32
    requires { ValidBook book.now }
    ensures { result ≡ swept_from left book.now }
{
    if left < SWEEP_ALL {
        return 0;
    }
    block::blocks(book) as u32
}

// Rounds until one has the answer.
fn plan_rounds(
    buffer: &mut [u8],
    len: usize,
    controller: &[u8],
    index: &mut [u32],
    trust: Trust,
    known: &mut [u8],
    width: u8,
    root: u32,
    scratch: &mut [u32],
) -> Plan
    requires { ValidBook controller.now × Trusted controller.now (half_of index.old) trust × Ready controller.now buffer.old len known.old × (is_type (take len buffer.old) root ≡ true) × (8192 ≤ length scratch.old) }
    ensures { PlannedIs (plan_from controller.now width root 18 (ours buffer.old len)) result buffer.new }
{
    let mut list = [0u32; 4096];
    let mut at = len;
    for left in (0..ROUNDS).rev() {
        let from = swept_from(&buffer[..at], left);
        let by = AddBy { width, from, trust };
        let here = one_round(
            buffer, at, controller, index, by, known, root, scratch, &mut list,
        );
        match here {
            ControlFlow::Continue(l) => at = l,
            ControlFlow::Break(plan) => return plan,
        }
    }
    Plan::Refused(15, at)
}

// ---- the call

// Makes the index of the controller's book in the first half, and marks which of its types our book knows. Where each of its types found a slot,
// no name which that book lacks costs a search of it.
fn prepare(book: &[u8], controller: &[u8], index: &mut [u32], known: &mut [u8]) -> Trust
    requires { ValidBook controller.now × (length known.old ≡ 65536) }
    ensures { Prepared controller.now book.now result index.new known.new }
{
    let half = index.len() / 2;
    let trust = fill_held(controller, &mut index[..half]);
    mark_known(book, controller, &index[..half], trust, known);
    trust
}

// The rounds where both books, the root and the scratch were checked; the index of the controller's book is made first.
fn plan_all(
    buffer: &mut [u8],
    len: usize,
    controller: &[u8],
    width: u8,
    root: u32,
    scratch: &mut [u32],
    index: &mut [u32],
) -> Plan
    requires { ValidBook controller.now × (check_book buffer.old len ≡ Valid) × (is_type (take len buffer.old) root ≡ true) × (8192 ≤ length scratch.old) }
    ensures { PlannedIs (plan_from controller.now width root 18 (ours buffer.old len)) result buffer.new }
{
    let mut known = [0u8; 65536];
    let trust = prepare(&buffer[..len], controller, index, &mut known);
    plan_rounds(
        buffer, len, controller, index, trust, &mut known, width, root, scratch,
    )
}

// The plan where both books, the root and the scratch were checked. Scratch and index are cleared at the end.
pub fn plan_in(
    buffer: &mut [u8],
    len: usize,
    controller: &[u8],
    width: u8,
    root: u32,
    scratch: &mut [u32],
    index: &mut [u32],
) -> Plan
    requires { ValidBook controller.now × (check_book buffer.old len ≡ Valid) × (is_type (take len buffer.old) root ≡ true) × (8192 ≤ length scratch.old) }
    ensures { PlanDone (plan_from controller.now width root 18 (ours buffer.old len)) scratch.old index.old result buffer.new scratch.new index.new }
{
    let plan = plan_all(buffer, len, controller, width, root, scratch, index);
    clear_numbers(scratch);
    clear_numbers(index);
    plan
}

// Document 01's number of a refusal of the controller's book, 0 for none.
pub fn their_refusal(controller: &[u8], len: usize) -> u8
    ensures { result ≡ refusal_of (book_numbers (check_book controller.now len)) }
{
    refusal_of(check_book(controller, len))
}

// The plan for type block `root` of our valid book: 1 to 4 of the controller's book and 6 of the scratch are what is left to refuse before the
// rounds.
pub fn plan_at(
    buffer: &mut [u8],
    len: usize,
    controller: &[u8],
    theirs: usize,
    width: u8,
    root: u32,
    scratch: &mut [u32],
    index: &mut [u32],
) -> Plan
    requires { check_root buffer.old len root ≡ Root root }
    ensures { PlanIs (plan_refusal buffer.old len controller.now theirs root scratch.old) buffer.old len controller.now theirs width root scratch.old index.old result buffer.new scratch.new index.new }
{
    let refusal = their_refusal(controller, theirs);
    if refusal != 0 {
        return Plan::Refused(refusal, len);
    }
    if !scratch_fits(scratch) {
        return Plan::Refused(6, len);
    }
    plan_in(
        buffer,
        len,
        &controller[..theirs],
        width,
        root,
        scratch,
        index,
    )
}

// Plans the save of the root: adds to our book, from the controller's, every type that the root is made of and our book lacks, and answers
// whether the memory must be read before it is written. Our book fills the first `len` bytes of the buffer, the controller's the first
// `theirs` bytes of its own. The index may have any length; eight numbers for each type of both books serve well: half of it is for the
// controller's book, and half for ours, which may come to have the types of both.
pub fn plan_save(
    buffer: &mut [u8],
    len: usize,
    controller: &[u8],
    theirs: usize,
    width: u8,
    root: u64,
    scratch: &mut [u32],
    index: &mut [u32],
) -> Plan
    ensures { PlanIs (plan_refusal buffer.old len controller.now theirs root scratch.old) buffer.old len controller.now theirs width root scratch.old index.old result buffer.new scratch.new index.new }
{
    let check = check_root(buffer, len, root);
    match check {
        RootCheck::Root(t) => plan_at(buffer, len, controller, theirs, width, t, scratch, index),
        RootCheck::Refused(n) => Plan::Refused(n, len),
    }
}
