// The walk of the types that a type is made of (the Rust's resolvers.rs), event by event. Whether the memory of a value must be read
// before it is written, and which types the book lacks, are two readings of this one walk: crates `resolve_read_modify_write` and
// `resolve_missing_types`. These functions are for the two alone, which show what their `requires` ask for.
#![tactic(auto)]

ghost use Rattle.std.specs.Prelude.{◌≡◌, true, ◌≤◌, ◌<◌, ◌+◌, length, take as first, replicate};
ghost use Rattle.type_book.specs.Book.{is_type};
ghost use Rattle.type_index.specs.Trust.{Trusted};
ghost use Rattle.type_book_check.specs.Check.{ValidBook};
ghost use Rattle.resolve_walk.specs.Scratch.{scratch_fits, list_fits};
ghost use Rattle.resolve_walk.specs.State.{Stepped, Started};

use resolve_walk_events::{Event, settle};
use resolve_walk_scratch::{lacking_bit, mark, marked, take, was_listed};
use resolvers::named_by;
use type_book::block;
use type_index::Trust;

// The maximum number of distinct type names to visit before a corrupted type table is assumed: this guards against very wide type
// graphs only, since cycles end at the visited names.
pub const MAX_TYPES_VISITED: usize = 4096;

// The numbers that a caller lends as scratch: a stack of at most one entry for each name visited, a bit for each of 65,536 blocks, and as
// many for the hashes of names that the book lacks.
const SCRATCH: usize = 8192;

// 6: the scratch is long enough.
pub fn scratch_fits(scratch: &[u32]) -> bool
    ensures { result ≡ scratch_fits scratch.now }
{
    scratch.len() >= SCRATCH
}

// 6: the list is long enough for every name that a walk visits.
pub fn list_fits(list: &[u32]) -> bool
    ensures { result ≡ list_fits list.now }
{
    list.len() >= MAX_TYPES_VISITED
}

// What a walk has left: how many further names it may visit, and how many entries its stack has.
#[derive(Clone, Copy)]
pub struct Rest {
    pub left: usize,
    pub depth: usize,
}

// One turn, with what the call knows of its index: the top block's name is new, or was visited.
pub fn step(
    book: &[u8],
    index: &[u32],
    trust: Trust,
    width: u8,
    scratch: &mut [u32],
    list: &[u32],
    n: usize,
    rest: Rest,
) -> Event
    requires { ValidBook book.now × Trusted book.now index.now trust × (8192 ≤ length scratch.old) × (n ≤ length list.now) × (0 < rest.depth) × (rest.depth + rest.left ≤ 4096) }
    ensures { Stepped book.now width scratch.old (first n list.now) rest.left rest.depth result scratch.new }
{
    let left = rest.left;
    let depth = rest.depth;
    let taken = take(scratch, depth);
    let b = taken.block;
    let d = taken.depth;
    let Some(t) = named_by(book, index, trust, b) else {
        let name = block::type_name(book, b);
        if was_listed(book, scratch, list, n, name) {
            return Event::Old(d);
        }
        if left == 0 {
            return Event::Full;
        }
        mark(scratch, lacking_bit(name));
        return Event::NotFound(b, d);
    };
    if marked(scratch, t) {
        return Event::Old(d);
    }
    if left == 0 {
        return Event::Full;
    }
    settle(book, index, trust, width, scratch, d, t)
}

// The first event: the root's own name, which finds the root block in a valid book.
pub fn start(book: &[u8], index: &[u32], width: u8, root: u32, scratch: &mut [u32]) -> Event
    requires { ValidBook book.now × (is_type book.now root ≡ true) × (8192 ≤ length scratch.old) × (scratch.old ≡ replicate (length scratch.old) 0) }
    ensures { Started book.now width root scratch.old result scratch.new }
{
    settle(book, index, Trust::Unknown, width, scratch, 0, root)
}
