// Which types the book lacks, of those that a type is made of (the Rust's resolvers.rs): the walk of crate `resolve_walk`, read to its end.
// `missing_types_in` takes a book that was checked once; `missing_types` checks it.
#![tactic(auto)]

ghost use Rattle.std.specs.Prelude.{◌≡◌, true, ◌≤◌, ◌<◌, ◌+◌, length, replicate};
ghost use Rattle.type_book.specs.Book.{is_type};
ghost use Rattle.type_book_check.specs.Check.{ValidBook};
ghost use Rattle.type_index.specs.Trust.{Trusted};
ghost use Rattle.resolve_walk.specs.State.{IsDue};
ghost use Rattle.resolve_missing_types.specs.Calls.{missing_fits, WalkedTo, MissingIn, MissingIs};
ghost use Rattle.type_book_check.specs.Given.{name as by_name};
ghost use Rattle.resolve_missing_types.specs.Given.{MissingLackingIn, GivenMissingIs};
ghost use Rattle.resolve_missing_types.specs.State.{OneMore, Applied, Learned};

use enc_zeros::clear_numbers;
use resolve_walk::{MAX_TYPES_VISITED, Rest, list_fits, scratch_fits, start, step};
use resolve_walk_events::Event;
use type_book_check::{GivenRoot, LACKING_ROOT, RootCheck};
use type_index::{Trust, hold_against, index_fits};

// What `missing_types` answers.
#[derive(Clone, Copy)]
pub enum Missing {
    // How many blocks are listed; whether the walk is whole: no chain was too long, and no name was one too many; how many distinct
    // names were met.
    Listed(usize, bool, usize),
    // A refusal, by document 01's number.
    Refused(u8),
}

// The state of `missing_walk`: names left, entries on the stack, blocks listed, whether still whole.
#[derive(Clone, Copy)]
struct Progress {
    left: usize,
    depth: usize,
    n: usize,
    ok: bool,
}

// Lists block b after n others, also where one of them names the same type: how many are listed then.
fn list_block(list: &mut [u32], n: usize, b: u32) -> usize
    requires { n < length list.old }
    ensures { OneMore list.old n b result list.new }
{
    list[n] = b;
    n + 1
}

// The state after an event; none after a name too many.
fn apply(e: Event, list: &mut [u32], at: Progress) -> Option<Progress>
    requires { IsDue at.left e × (4096 ≤ length list.old) × (at.n + at.left ≤ 4096) }
    ensures { Applied e list.old at.left at.n at.ok result list.new }
{
    match e {
        Event::Old(depth) => Some(Progress { depth, ..at }),
        Event::New(_, depth, _) => Some(Progress {
            left: at.left - 1,
            depth,
            ..at
        }),
        Event::NotFound(b, depth) => Some(Progress {
            left: at.left - 1,
            depth,
            n: list_block(list, at.n, b),
            ok: at.ok,
        }),
        Event::TooLong(depth) => Some(Progress {
            left: at.left - 1,
            depth,
            ok: false,
            ..at
        }),
        Event::Full => None,
    }
}

// What is known of the index after a turn: it is held against the book, once, when the first name is listed as not there, so that each
// further one costs no search of the book.
fn learn(book: &[u8], index: &[u32], trust: Trust, before: usize, n: usize) -> Trust
    requires { Trusted book.now index.now trust }
    ensures { Learned book.now index.now trust before n result }
{
    if before == n {
        return trust;
    }
    hold_against(book, index, trust)
}

// The walk for the missing list, over a scratch of zeros.
fn missing_walk(
    book: &[u8],
    index: &[u32],
    width: u8,
    root: u32,
    scratch: &mut [u32],
    list: &mut [u32],
) -> Missing
    requires { ValidBook book.now × (is_type book.now root ≡ true) × (8192 ≤ length scratch.old) × (4096 ≤ length list.old) × (scratch.old ≡ replicate (length scratch.old) 0) }
    ensures { WalkedTo book.now width root list.old result list.new }
{
    let mut e = start(book, index, width, root, scratch);
    let mut at = Progress {
        left: MAX_TYPES_VISITED,
        depth: 0,
        n: 0,
        ok: true,
    };
    let mut trust = Trust::Unknown;
    while let Some(now) = apply(e, list, at) {
        if now.depth == 0 {
            return Missing::Listed(now.n, now.ok, MAX_TYPES_VISITED - now.left);
        }
        trust = learn(book, index, trust, at.n, now.n);
        let rest = Rest {
            left: now.left,
            depth: now.depth,
        };
        e = step(book, index, trust, width, scratch, list, now.n, rest);
        at = now;
    }
    Missing::Listed(at.n, false, MAX_TYPES_VISITED + 1)
}

// `missing_types` for a book that was checked, with an index.
pub fn missing_types_in(
    book: &[u8],
    index: &[u32],
    width: u8,
    root: u32,
    scratch: &mut [u32],
    list: &mut [u32],
) -> Missing
    requires { ValidBook book.now × (is_type book.now root ≡ true) × (8192 ≤ length scratch.old) × (4096 ≤ length list.old) }
    ensures { MissingIn true book.now width root scratch.old list.old result scratch.new list.new }
{
    clear_numbers(scratch);
    let answer = missing_walk(book, index, width, root, scratch, list);
    clear_numbers(scratch);
    answer
}

// `missing_types` for type block `root` of a valid book: 6 where index, scratch or list is too short.
fn missing_at(
    book: &[u8],
    index: &[u32],
    width: u8,
    root: u32,
    scratch: &mut [u32],
    list: &mut [u32],
) -> Missing
    requires { ValidBook book.now × (is_type book.now root ≡ true) }
    ensures { MissingIn (missing_fits index.now scratch.old list.old) book.now width root scratch.old list.old result scratch.new list.new }
{
    if !index_fits(index) {
        return Missing::Refused(6);
    }
    if !scratch_fits(scratch) {
        return Missing::Refused(6);
    }
    if !list_fits(list) {
        return Missing::Refused(6);
    }
    missing_types_in(book, index, width, root, scratch, list)
}

// Lists every type that the root is made of and the book lacks, each by the block that names it, in the order found: without an
// error at the first, so that all can be fetched in one request. The book fills the first `len` bytes of the buffer. The index is one
// that `build_index` made for it; any other gives the same answer, later.
pub fn missing_types(
    buffer: &[u8],
    len: usize,
    index: &[u32],
    width: u8,
    root: u64,
    scratch: &mut [u32],
    list: &mut [u32],
) -> Missing
    ensures { MissingIs buffer.now len index.now width root scratch.old list.old result scratch.new list.new }
{
    let check = type_book_check::check_root(buffer, len, root);
    match check {
        RootCheck::Root(t) => missing_at(&buffer[..len], index, width, t, scratch, list),
        RootCheck::Refused(n) => Missing::Refused(n),
    }
}

// `missing_types` for a name that a valid book lacks, of which nothing else is known: that name alone is missing. 6 where index, scratch or
// list is too short.
fn missing_lacking(index: &[u32], scratch: &mut [u32], list: &mut [u32]) -> Missing
    ensures { MissingLackingIn (missing_fits index.now scratch.old list.old) scratch.old list.old result scratch.new list.new }
{
    if !index_fits(index) {
        return Missing::Refused(6);
    }
    if !scratch_fits(scratch) {
        return Missing::Refused(6);
    }
    if !list_fits(list) {
        return Missing::Refused(6);
    }
    clear_numbers(scratch);
    let n = list_block(list, 0, LACKING_ROOT);
    Missing::Listed(n, true, 1)
}

// `missing_types` of a root that is given by its name.
pub fn missing_types_named(
    buffer: &[u8],
    len: usize,
    index: &[u32],
    width: u8,
    name: &[u8],
    scratch: &mut [u32],
    list: &mut [u32],
) -> Missing
    ensures { GivenMissingIs buffer.now len index.now width (by_name name.now) scratch.old list.old result scratch.new list.new }
{
    let check = type_book_check::check_root_named(buffer, len, name);
    match check {
        GivenRoot::Block(t) => missing_at(&buffer[..len], index, width, t, scratch, list),
        GivenRoot::Lacking => missing_lacking(index, scratch, list),
        GivenRoot::Refused(n) => Missing::Refused(n),
    }
}
