// The adds of a plan: the types that an ask listed are added to our book from the controller's, and then what types of our book are made of,
// so that few asks are needed. Both books were checked once.
#![tactic(auto)]

ghost use Rattle.std.specs.Prelude.{◌≡◌, ◌≤◌, length, take};
ghost use Rattle.type_book.specs.Book.{type_name_of};
ghost use Rattle.type_provider.specs.Find.{find};
ghost use Rattle.type_index.specs.Trust.{Trusted};
ghost use Rattle.type_book_check.specs.Check.{ValidBook};
ghost use Rattle.plan_adds.specs.Adds.{ours, add_listed, due_type, due_of, sweep as sweep_of, add_all};
ghost use Rattle.plan_adds.specs.State.{Ready, FetchedIs, AddedIs, SweptIs, SweepIs};

use plan_type_adds::append_in;
use resolve_walk_scratch::{ScratchParts, parts_of};
use resolvers::goes_on;
use type_book::block;
use type_book::block::BLOCK;
use type_cache::Appended;
use type_category::type_category::AdsTypeCategory;
use type_index::{Trust, find_in};

// The blocks of a book at most.
const MAX_BLOCKS: u32 = 65536;

// Why a type is not added: the controller's book lacks it, or there is no room for it.
#[derive(Clone, Copy)]
enum Unfetched {
    NotFound,
    Full,
}

// The length of our book with several types; or the block whose type name was not found, or no room, and the length at which the adding ended.
#[derive(Clone, Copy)]
pub enum Added {
    More(usize),
    NotFound(u32, usize),
    Full(usize),
}

// Whether a block names a type that its own type is made of, and how many fields are due after it.
#[derive(Clone, Copy)]
pub enum Due {
    Names(u32),
    Rest(u32),
}

// After a block was swept: the length of our book, and how many fields are due.
#[derive(Clone, Copy)]
struct Swept {
    len: usize,
    due: u32,
}

// How the adds of a round are done: the width, the block from which types are swept, and what is known of the index of the controller's book.
#[derive(Clone, Copy)]
pub struct AddBy {
    pub width: u8,
    pub from: u32,
    pub trust: Trust,
}

// ---- adding

// The controller's type that block b of our book names.
fn find_theirs(book: &[u8], controller: &[u8], index: &[u32], trust: Trust, b: u32) -> Option<u32>
    requires { ValidBook controller.now × Trusted controller.now index.now trust }
    ensures { result ≡ find controller.now (type_name_of book.now b) }
{
    find_in(controller, index, trust, block::type_name(book, b))
}

// Adds the type that block b of our book names from the controller's book: the length of our book then. A name that our book knows by now is none
// to add.
fn fetch(
    buffer: &mut [u8],
    len: usize,
    controller: &[u8],
    index: &[u32],
    trust: Trust,
    known: &mut [u8],
    b: u32,
) -> Result<usize, Unfetched>
    requires { ValidBook controller.now × Trusted controller.now index.now trust × Ready controller.now buffer.old len known.old }
    ensures { FetchedIs controller.now b buffer.old len result buffer.new known.new }
{
    let found = find_theirs(&buffer[..len], controller, index, trust, b);
    let Some(n) = found else {
        return Err(Unfetched::NotFound);
    };
    let answer = append_in(buffer, len, controller, n, known);
    match answer {
        Appended::Done(l) => Ok(l),
        Appended::Refused(k) => {
            if k == 15 {
                return Err(Unfetched::Full);
            }
            Ok(len)
        }
    }
}

// Adds the types of the first n listed blocks, in order.
fn add_listed(
    buffer: &mut [u8],
    len: usize,
    controller: &[u8],
    index: &[u32],
    trust: Trust,
    known: &mut [u8],
    list: &[u32],
    n: usize,
) -> Added
    requires { ValidBook controller.now × Trusted controller.now index.now trust × Ready controller.now buffer.old len known.old × (n ≤ length list.now) }
    ensures { AddedIs (add_listed controller.now (take n list.now) (ours buffer.old len)) controller.now buffer.old len result buffer.new known.new }
{
    let mut at = len;
    for b in &list[..n] {
        let fetched = fetch(buffer, at, controller, index, trust, known, *b);
        match fetched {
            Ok(l) => at = l,
            Err(Unfetched::NotFound) => return Added::NotFound(*b, at),
            Err(Unfetched::Full) => return Added::Full(at),
        }
    }
    Added::More(at)
}

// ---- sweeping

// A type block by its category: aliases and arrays name a type themselves, the fields of a struct follow.
fn due_type(book: &[u8], i: u32, category: AdsTypeCategory) -> Due
    ensures { result ≡ due_type book.now i category }
{
    if goes_on(category, false) {
        return Due::Names(0);
    }
    let kind = parts_of(category);
    match kind {
        ScratchParts::Element => Due::Names(0),
        ScratchParts::Fields => Due::Rest(block::fields(book, i)),
        ScratchParts::Nothing => Due::Rest(0),
    }
}

// Whether block i names a type that its own type is made of, where `due` fields are due.
fn due_at(book: &[u8], width: u8, i: u32, due: u32) -> Due
    ensures { result ≡ due_of book.now width i due }
{
    if due > 0 {
        return Due::Names(due - 1);
    }
    if block::is_type(book, i) {
        return due_type(book, i, AdsTypeCategory::determine(book, width, i));
    }
    Due::Rest(0)
}

// Adds the type that block i names, if it is one that its own type is made of. A name that the controller's book lacks is passed over, and
// one whose definition has no room: if it is needed, the next ask lists it.
fn sweep_block(
    buffer: &mut [u8],
    len: usize,
    controller: &[u8],
    index: &[u32],
    by: AddBy,
    known: &mut [u8],
    i: u32,
    due: u32,
) -> Swept
    requires { ValidBook controller.now × Trusted controller.now index.now by.trust × Ready controller.now buffer.old len known.old }
    ensures { SweptIs controller.now by.width i due buffer.old len result buffer.new known.new }
{
    let here = due_at(&buffer[..len], by.width, i, due);
    match here {
        Due::Rest(k) => Swept { len, due: k },
        Due::Names(k) => {
            let fetched = fetch(buffer, len, controller, index, by.trust, known, i);
            Swept {
                len: fetched.unwrap_or(len),
                due: k,
            }
        }
    }
}

// Sweeps the blocks from block `by.from` to the end of our book, which grows meanwhile, and answers its length then.
fn sweep(
    buffer: &mut [u8],
    len: usize,
    controller: &[u8],
    index: &[u32],
    by: AddBy,
    known: &mut [u8],
) -> usize
    requires { ValidBook controller.now × Trusted controller.now index.now by.trust × Ready controller.now buffer.old len known.old }
    ensures { SweepIs (sweep_of controller.now by.width by.from (ours buffer.old len)) controller.now buffer.old len result buffer.new known.new }
{
    let mut at = len;
    let mut due: u32 = 0;
    for i in by.from..MAX_BLOCKS {
        if at / BLOCK <= i as usize {
            return at;
        }
        let swept = sweep_block(buffer, at, controller, index, by, known, i, due);
        at = swept.len;
        due = swept.due;
    }
    at
}

// Adds the types of the first n listed blocks, and then what the types from block `by.from` on are made of.
pub fn add_all(
    buffer: &mut [u8],
    len: usize,
    controller: &[u8],
    index: &[u32],
    by: AddBy,
    known: &mut [u8],
    list: &[u32],
    n: usize,
) -> Added
    requires { ValidBook controller.now × Trusted controller.now index.now by.trust × Ready controller.now buffer.old len known.old × (n ≤ length list.now) }
    ensures { AddedIs (add_all controller.now by.width by.from (take n list.now) (ours buffer.old len)) controller.now buffer.old len result buffer.new known.new }
{
    let trust = by.trust;
    let added = add_listed(buffer, len, controller, index, trust, known, list, n);
    match added {
        Added::More(l) => Added::More(sweep(buffer, l, controller, index, by, known)),
        Added::NotFound(b, l) => Added::NotFound(b, l),
        Added::Full(l) => Added::Full(l),
    }
}
