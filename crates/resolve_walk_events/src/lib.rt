// What one turn of a walk finds, and the event of a new name: the type that it comes to is marked visited and its parts are laid on the
// stack. These functions are for the walks alone, which show what their `requires` ask for.
#![tactic(auto)]

ghost use Rattle.std.specs.Prelude.{◌≡◌, true, ◌≤◌, ◌<◌, length};
ghost use Rattle.type_book.specs.Book.{is_type};
ghost use Rattle.type_index.specs.Trust.{Trusted};
ghost use Rattle.type_book_check.specs.Check.{ValidBook};
ghost use Rattle.resolve_walk_events.specs.Events.{Settles};

use resolve_walk_scratch::{expand, mark};
use resolvers::Resolved;
use type_category::type_category::AdsTypeCategory;
use type_index::Trust;

// What one turn of a walk finds; the last number is the entries on the stack after it.
#[derive(Clone, Copy)]
pub enum Event {
    // The name was visited before.
    Old(usize),
    // The type name of this block is not in the book.
    NotFound(u32, usize),
    // The name is new, and comes to this type, of this category.
    New(u32, usize, AdsTypeCategory),
    // Its alias chain is too long.
    TooLong(usize),
    // It would be one name too many.
    Full,
}

// The event of the new name of alias t.
fn settle_alias(
    book: &[u8],
    index: &[u32],
    trust: Trust,
    width: u8,
    scratch: &mut [u32],
    depth: usize,
    t: u32,
) -> Event
    requires { ValidBook book.now × Trusted book.now index.now trust × (is_type book.now t ≡ true) × (depth < 4096) × (6144 ≤ length scratch.old) }
    ensures { Settles book.now width scratch.old depth t result scratch.new }
{
    let resolved = resolvers::resolve_alias_by(book, index, trust, width, t);
    match resolved {
        Resolved::Base(u) => {
            let category = AdsTypeCategory::determine(book, width, u);
            Event::New(u, expand(book, scratch, depth, t, u, category), category)
        }
        Resolved::NotFound(c) => {
            mark(scratch, t);
            Event::NotFound(c, depth)
        }
        Resolved::TooLong => {
            mark(scratch, t);
            Event::TooLong(depth)
        }
    }
}

// The event of the new name of type block t: it is visited now. Most types are no aliases: their category is determined once.
pub fn settle(
    book: &[u8],
    index: &[u32],
    trust: Trust,
    width: u8,
    scratch: &mut [u32],
    depth: usize,
    t: u32,
) -> Event
    requires { ValidBook book.now × Trusted book.now index.now trust × (is_type book.now t ≡ true) × (depth < 4096) × (6144 ≤ length scratch.old) }
    ensures { Settles book.now width scratch.old depth t result scratch.new }
{
    let category = AdsTypeCategory::determine(book, width, t);
    if resolvers::goes_on(category, false) {
        return settle_alias(book, index, trust, width, scratch, depth, t);
    }
    Event::New(t, expand(book, scratch, depth, t, t, category), category)
}
