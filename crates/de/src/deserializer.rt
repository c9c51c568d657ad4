// The value of a type in some bytes.
ghost use Rattle.std.specs.Prelude.{◌≡◌, ◌≤◌, true};
ghost use Rattle.type_book_check.specs.Check.{ValidBook};
ghost use Rattle.type_book.specs.Book.{is_type};
ghost use Rattle.type_category.specs.Category.{category_of};
ghost use Rattle.de.specs.Plans.{ReadPlan};
ghost use Rattle.de_output.specs.Answer.{ReadIs};
ghost use Rattle.de_output.specs.Trace.{From};
ghost use Rattle.tape_array_elements.specs.Element.{whole};
ghost use Rattle.de.specs.Walk.{ctx, read_walk};
ghost use Rattle.type_book_check.specs.Given.{name as by_name};
ghost use Rattle.de.specs.Read.{root_trace, read_trace, given_trace};

use crate::array_access::array;
use crate::map_access::map;
use crate::reading::Reading;
use de_leaf_output::{Typed, leaf};
use de_output::{ReadAnswer, Step, finish};
use resolvers::Resolved;
use tape_shape::{Shape, shape_of};
use type_book_check::{GivenRoot, LACKING_ROOT, RootCheck};
use type_category::type_category::AdsTypeCategory;

// A value of a type in `bytes` (`deserialize_any`). The plan is that of the type's fields, or empty.
#[cycle(reader)]
pub(crate) fn value(
    s: Step,
    book: &[u8],
    index: &[u32],
    v: Reading,
    plan: &[u64],
    bytes: &[u8],
    tape: &mut [u8],
    text: &mut [u8],
) -> Step
    requires { ValidBook book.now × (is_type book.now v.typed.resolved ≡ true) × (v.typed.category ≡ category_of book.now v.width v.typed.resolved) × ReadPlan (ctx book.now v.width) v.typed.resolved plan.now }
    ensures { From (read_walk (ctx book.now v.width) v.left (whole v.typed) bytes.now) tape.old text.old s result tape.new text.new }
{
    if v.left == 0 {
        return de_output::stop(s, 14, 0);
    }
    let typed = v.typed;
    let category = typed.category;
    let form = shape_of(category);
    let inside = Reading {
        left: v.left - 1,
        ..v
    };
    match form {
        Shape::Map => map(s, book, index, inside, plan, bytes, tape, text),
        Shape::Array => array(s, book, index, inside, bytes, tape, text),
        Shape::Leaf => leaf(s, book, v.width, typed, bytes, tape, text),
    }
}

// The memory by type block `root` of a checked book, and an index of its names.
pub fn read_in(
    book: &[u8],
    index: &[u32],
    width: u8,
    root: u32,
    memory: &[u8],
    tape: &mut [u8],
    text: &mut [u8],
) -> ReadAnswer
    requires { ValidBook book.now × (is_type book.now root ≡ true) }
    ensures { ReadIs (root_trace (ctx book.now width) root memory.now) tape.old text.old result tape.new text.new }
{
    let resolved = resolvers::resolve_alias_in(book, index, width, root);
    match resolved {
        Resolved::Base(t) => {
            let category = AdsTypeCategory::determine(book, width, t);
            let typed = Typed {
                named: root,
                resolved: t,
                category,
            };
            let v = Reading {
                typed,
                width,
                left: 64,
            };
            let none = [0u64; 1];
            let s = value(
                Step::Next(0, 0),
                book,
                index,
                v,
                &none[0..0],
                memory,
                tape,
                text,
            );
            finish(s, tape, text)
        }
        Resolved::NotFound(b) => finish(Step::Stop(7, b), tape, text),
        Resolved::TooLong => finish(Step::Stop(8, 0), tape, text),
    }
}

// The blocks of a book up to which the small index serves: half of its slots stay empty then, whatever the blocks are.
const SMALL_BOOK: usize = 8192;

// Two slots for each block of a small book.
const SMALL_INDEX: usize = 16384;

// Two slots for each of the 65,536 blocks that a book may have, so that no type goes without one.
const LARGE_INDEX: usize = 131072;

// `read_in` with an index of N slots on the stack.
fn read_sized<const N: usize>(
    book: &[u8],
    width: u8,
    root: u32,
    memory: &[u8],
    tape: &mut [u8],
    text: &mut [u8],
) -> ReadAnswer
    requires { ValidBook book.now × (is_type book.now root ≡ true) × (N ≤ 131072) }
    ensures { ReadIs (root_trace (ctx book.now width) root memory.now) tape.old text.old result tape.new text.new }
{
    let mut index = [0u32; N];
    type_index::fill_names(book, &mut index);
    read_in(book, &index, width, root, memory, tape, text)
}

// `read_in` with an index on the stack.
fn read_indexed(
    book: &[u8],
    width: u8,
    root: u32,
    memory: &[u8],
    tape: &mut [u8],
    text: &mut [u8],
) -> ReadAnswer
    requires { ValidBook book.now × (is_type book.now root ≡ true) }
    ensures { ReadIs (root_trace (ctx book.now width) root memory.now) tape.old text.old result tape.new text.new }
{
    if type_book::block::blocks(book) <= SMALL_BOOK {
        return read_sized::<SMALL_INDEX>(book, width, root, memory, tape, text);
    }
    read_sized::<LARGE_INDEX>(book, width, root, memory, tape, text)
}

// The memory by the type at block `root` of the book in the first `len` bytes of the buffer.
pub fn read(
    buffer: &[u8],
    len: usize,
    width: u8,
    root: u64,
    memory: &[u8],
    tape: &mut [u8],
    text: &mut [u8],
) -> ReadAnswer
    ensures { ReadIs (read_trace buffer.now len width root memory.now) tape.old text.old result tape.new text.new }
{
    let checked = type_book_check::check_root(buffer, len, root);
    match checked {
        RootCheck::Root(n) => read_indexed(&buffer[..len], width, n, memory, tape, text),
        RootCheck::Refused(k) => finish(Step::Stop(k, 0), tape, text),
    }
}

// The same by the type of that name.
pub fn read_named(
    buffer: &[u8],
    len: usize,
    width: u8,
    name: &[u8],
    memory: &[u8],
    tape: &mut [u8],
    text: &mut [u8],
) -> ReadAnswer
    ensures { ReadIs (given_trace buffer.now len width (by_name name.now) memory.now) tape.old text.old result tape.new text.new }
{
    let checked = type_book_check::check_root_named(buffer, len, name);
    match checked {
        GivenRoot::Block(n) => read_indexed(&buffer[..len], width, n, memory, tape, text),
        GivenRoot::Lacking => finish(Step::Stop(7, LACKING_ROOT), tape, text),
        GivenRoot::Refused(k) => finish(Step::Stop(k, 0), tape, text),
    }
}
