// An array: its dimensions in order, the last one's elements by their type.
ghost use Rattle.std.specs.Prelude.{◌≡◌, true, length};
ghost use Rattle.type_book_check.specs.Check.{ValidBook};
ghost use Rattle.type_book.specs.Book.{is_type};
ghost use Rattle.type_category.specs.Category.{category_of};
ghost use Rattle.de.specs.Plans.{ReadElementPlan};
ghost use Rattle.de_output.specs.Trace.{From};
ghost use Rattle.tape_shape.specs.Array.{Fills, FillsNext};
ghost use Rattle.tape_array_elements.specs.Element.{element_item};
ghost use Rattle.de.specs.Walk.{ctx, read_walk, array_of, dimension_of, elements_of};

use crate::deserializer::value;
use crate::reading::{Place, Reading};
use de_leaf_output::Typed;
use de_output::{Step, put_frame, stop};
use resolve_field_types::FieldsCheck;
use resolvers::Resolved;
use tape::record::{ARRAY, ARRAY_END};
use tape_shape::array::{is_last, product_is, stride_of};
use type_category::type_category::AdsTypeCategory;
use validators::{Validity, validate_exact_size};

// An array (`deserialize_seq`): its size is held against the bytes, then its element's name is looked up. A name that is not in the book
// is 7 with the array's block.
#[cycle(reader)]
pub(crate) fn array(
    s: Step,
    book: &[u8],
    index: &[u32],
    v: Reading,
    bytes: &[u8],
    tape: &mut [u8],
    text: &mut [u8],
) -> Step
    requires { ValidBook book.now × (is_type book.now v.typed.resolved ≡ true) }
    ensures { From (array_of (read_walk (ctx book.now v.width) v.left) (ctx book.now v.width) v.typed bytes.now) tape.old text.old s result tape.new text.new }
{
    let t = v.typed.resolved;
    let size = type_book::block::size(book, t) as usize;
    let Validity::Valid = validate_exact_size(bytes, size) else {
        return stop(s, 10, 0);
    };
    let found = resolvers::named_in(book, index, t);
    let Some(named) = found else {
        return stop(s, 7, t);
    };
    let resolved = resolvers::resolve_alias_in(book, index, v.width, named);
    match resolved {
        Resolved::Base(e) => {
            // The product of size and counts is tested after the look-up, and before the first dimension.
            if product_is(book, t, e, bytes) {
                let category = AdsTypeCategory::determine(book, v.width, e);
                let element = Typed {
                    named,
                    resolved: e,
                    category,
                };
                let p = Place {
                    named: v.typed.named,
                    d: 0,
                    t,
                    element,
                    width: v.width,
                    left: v.left,
                };
                return dimension(s, book, index, p, bytes, tape, text);
            }
            stop(s, 10, 0)
        }
        Resolved::NotFound(b) => stop(s, 7, b),
        Resolved::TooLong => stop(s, 8, 0),
    }
}

// One dimension of an array (`with_element_type`): in the last one its element's fields are resolved first, and kept in a plan.
#[cycle(reader)]
pub(crate) fn dimension(
    s: Step,
    book: &[u8],
    index: &[u32],
    p: Place,
    bytes: &[u8],
    tape: &mut [u8],
    text: &mut [u8],
) -> Step
    requires { ValidBook book.now × (is_type book.now p.element.resolved ≡ true) × (p.element.category ≡ category_of book.now p.width p.element.resolved) × Fills book.now p.d p.t p.element.resolved (length bytes.now) }
    ensures { From (dimension_of (read_walk (ctx book.now p.width) p.left) (ctx book.now p.width) p.named p.d p.t p.element bytes.now) tape.old text.old s result tape.new text.new }
{
    let element = p.element;
    let category = element.category;
    let mut plan = [0u64; 256];
    let fields = tape_array_elements::element_check(
        book,
        index,
        p.width,
        p.d,
        p.t,
        element.resolved,
        category,
        &mut plan,
    );
    match fields {
        FieldsCheck::Fine => elements(s, book, index, p, &plan, bytes, tape, text),
        FieldsCheck::NotFound(b) => stop(s, 7, b),
        FieldsCheck::TooLong => stop(s, 8, 0),
    }
}

// The array record, the elements and the end record.
#[cycle(reader)]
pub(crate) fn elements(
    s: Step,
    book: &[u8],
    index: &[u32],
    p: Place,
    plan: &[u64],
    bytes: &[u8],
    tape: &mut [u8],
    text: &mut [u8],
) -> Step
    requires { ValidBook book.now × (is_type book.now p.element.resolved ≡ true) × (p.element.category ≡ category_of book.now p.width p.element.resolved) × ReadElementPlan (ctx book.now p.width) p.d p.t p.element.resolved plan.now × Fills book.now p.d p.t p.element.resolved (length bytes.now) }
    ensures { From (elements_of (read_walk (ctx book.now p.width) p.left) (ctx book.now p.width) p.named p.d p.t p.element bytes.now) tape.old text.old s result tape.new text.new }
{
    let n = type_book::block::count(book, p.t, p.d) as usize;
    let mut here = put_frame(s, tape, text, ARRAY, p.named, n as u64);
    let stride = stride_of(n, bytes.len());
    let mut from: usize = 0;
    for _ in 0..n {
        let Step::Next(_, _) = here else {
            return here;
        };
        let to = from + stride;
        here = element(here, book, index, p, plan, &bytes[from..to], tape, text);
        from = to;
    }
    put_frame(here, tape, text, ARRAY_END, 0, 0)
}

// What one index of a dimension holds (`next_element_seed`): an element, or the next dimension one level deeper.
#[cycle(reader)]
pub(crate) fn element(
    s: Step,
    book: &[u8],
    index: &[u32],
    p: Place,
    plan: &[u64],
    bytes: &[u8],
    tape: &mut [u8],
    text: &mut [u8],
) -> Step
    requires { ValidBook book.now × (is_type book.now p.element.resolved ≡ true) × (p.element.category ≡ category_of book.now p.width p.element.resolved) × ReadElementPlan (ctx book.now p.width) p.d p.t p.element.resolved plan.now × FillsNext book.now p.d p.t p.element.resolved (length bytes.now) }
    ensures { From (read_walk (ctx book.now p.width) p.left (element_item book.now p.d p.t p.element) bytes.now) tape.old text.old s result tape.new text.new }
{
    let typed = p.element;
    if is_last(book, p.d, p.t) {
        let v = Reading {
            typed,
            width: p.width,
            left: p.left,
        };
        return value(s, book, index, v, plan, bytes, tape, text);
    }
    if p.left == 0 {
        return stop(s, 14, 0);
    }
    let next = Place {
        named: p.t,
        d: p.d + 1,
        left: p.left - 1,
        ..p
    };
    dimension(s, book, index, next, bytes, tape, text)
}
