// Whether the memory of a value must be read before it is written (the Rust's resolvers.rs): the walk of crate `resolve_walk`, read up to the
// first event that answers. `requires_read_modify_write_in` takes a book that was checked once; `requires_read_modify_write` checks
// it.
#![tactic(auto)]

ghost use Rattle.std.specs.Prelude.{◌≡◌, true, ◌≤◌, length, replicate};
ghost use Rattle.type_book.specs.Book.{is_type};
ghost use Rattle.type_book_check.specs.Check.{ValidBook};
ghost use Rattle.resolve_walk.specs.State.{IsDue};
ghost use Rattle.resolve_read_modify_write.specs.Reads.{keeps_state};
ghost use Rattle.resolve_read_modify_write.specs.Calls.{rmw_fits, rmw_answer, RmwIn, RmwIs};
ghost use Rattle.type_book_check.specs.Given.{name as by_name};
ghost use Rattle.resolve_read_modify_write.specs.Given.{RmwLackingIn, GivenRmwIs};
ghost use Rattle.resolve_read_modify_write.specs.State.{Decided};

use enc_zeros::clear_numbers;
use resolve_walk::{MAX_TYPES_VISITED, Rest, scratch_fits, start, step};
use resolve_walk_events::Event;
use std::ops::ControlFlow;
use type_book_check::{GivenRoot, LACKING_ROOT, RootCheck};
use type_category::type_category::AdsTypeCategory;
use type_index::{Trust, index_fits};

// What `requires_read_modify_write` answers.
#[derive(Clone, Copy)]
pub enum Rmw {
    Yes,
    No,
    // 7, with the block whose type name is not in the book.
    NotFound(u32),
    // Any other refusal, by document 01's number.
    Refused(u8),
}

// Function blocks and programs keep state that no field shows, as the pointer to their methods: to write zeros there would destroy
// it.
fn keeps_state(category: AdsTypeCategory) -> bool
    ensures { result ≡ keeps_state category }
{
    matches!(
        category,
        AdsTypeCategory::FunctionBlock | AdsTypeCategory::Program
    )
}

// What an event is for read-modify-write: what the walk has left after it, or the answer.
fn decide(e: Event, left: usize) -> ControlFlow<Rmw, Rest>
    requires { IsDue left e }
    ensures { Decided e left result }
{
    match e {
        Event::Old(depth) => ControlFlow::Continue(Rest { left, depth }),
        Event::New(_, depth, category) => {
            if keeps_state(category) {
                return ControlFlow::Break(Rmw::Yes);
            }
            ControlFlow::Continue(Rest {
                left: left - 1,
                depth,
            })
        }
        Event::NotFound(b, _) => ControlFlow::Break(Rmw::NotFound(b)),
        Event::TooLong(_) => ControlFlow::Break(Rmw::Refused(8)),
        Event::Full => ControlFlow::Break(Rmw::Refused(9)),
    }
}

// The walk for read-modify-write, over a scratch of zeros. It ends at the first name that the book lacks, so it
// keeps no list, and the index is not held against the book.
fn rmw_walk(book: &[u8], index: &[u32], width: u8, root: u32, scratch: &mut [u32]) -> Rmw
    requires { ValidBook book.now × (is_type book.now root ≡ true) × (8192 ≤ length scratch.old) × (scratch.old ≡ replicate (length scratch.old) 0) }
    ensures { result ≡ rmw_answer true book.now width root }
{
    let e = start(book, index, width, root, scratch);
    let mut here = decide(e, MAX_TYPES_VISITED);
    loop {
        match here {
            ControlFlow::Break(answer) => return answer,
            ControlFlow::Continue(rest) => {
                if rest.depth == 0 {
                    return Rmw::No;
                }
                let e = step(book, index, Trust::Unknown, width, scratch, &[], 0, rest);
                here = decide(e, rest.left);
            }
        }
    }
}

// `requires_read_modify_write` for a book that was checked, with an index.
pub fn requires_read_modify_write_in(
    book: &[u8],
    index: &[u32],
    width: u8,
    root: u32,
    scratch: &mut [u32],
) -> Rmw
    requires { ValidBook book.now × (is_type book.now root ≡ true) × (8192 ≤ length scratch.old) }
    ensures { RmwIn true book.now width root scratch.old result scratch.new }
{
    clear_numbers(scratch);
    let answer = rmw_walk(book, index, width, root, scratch);
    clear_numbers(scratch);
    answer
}

// `requires_read_modify_write` for type block `root` of a valid book: 6 where index or scratch is too short.
fn rmw_at(book: &[u8], index: &[u32], width: u8, root: u32, scratch: &mut [u32]) -> Rmw
    requires { ValidBook book.now × (is_type book.now root ≡ true) }
    ensures { RmwIn (rmw_fits index.now scratch.old) book.now width root scratch.old result scratch.new }
{
    if !index_fits(index) {
        return Rmw::Refused(6);
    }
    if !scratch_fits(scratch) {
        return Rmw::Refused(6);
    }
    requires_read_modify_write_in(book, index, width, root, scratch)
}

// Whether the memory of a value of the root's type must be read, changed and written back: it is, or is made of, a function block.
// The book fills the first `len` bytes of the buffer. The index is one that `build_index` made for it; any other gives the same answer,
// later.
pub fn requires_read_modify_write(
    buffer: &[u8],
    len: usize,
    index: &[u32],
    width: u8,
    root: u64,
    scratch: &mut [u32],
) -> Rmw
    ensures { RmwIs buffer.now len index.now width root scratch.old result scratch.new }
{
    let check = type_book_check::check_root(buffer, len, root);
    match check {
        RootCheck::Root(t) => rmw_at(&buffer[..len], index, width, t, scratch),
        RootCheck::Refused(n) => Rmw::Refused(n),
    }
}

// `requires_read_modify_write` for a name that a valid book lacks: 6 where index or scratch is too short, else 7.
fn rmw_lacking(index: &[u32], scratch: &mut [u32]) -> Rmw
    ensures { RmwLackingIn (rmw_fits index.now scratch.old) scratch.old result scratch.new }
{
    if !index_fits(index) {
        return Rmw::Refused(6);
    }
    if !scratch_fits(scratch) {
        return Rmw::Refused(6);
    }
    clear_numbers(scratch);
    Rmw::NotFound(LACKING_ROOT)
}

// `requires_read_modify_write` of a root that is given by its name.
pub fn requires_read_modify_write_named(
    buffer: &[u8],
    len: usize,
    index: &[u32],
    width: u8,
    name: &[u8],
    scratch: &mut [u32],
) -> Rmw
    ensures { GivenRmwIs buffer.now len index.now width (by_name name.now) scratch.old result scratch.new }
{
    let check = type_book_check::check_root_named(buffer, len, name);
    match check {
        GivenRoot::Block(t) => rmw_at(&buffer[..len], index, width, t, scratch),
        GivenRoot::Lacking => rmw_lacking(index, scratch),
        GivenRoot::Refused(n) => Rmw::Refused(n),
    }
}
