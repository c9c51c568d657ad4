// The elements of an array: the test of their fields, for reader and writer alike.
#![tactic(auto)]

ghost use Rattle.std.specs.Prelude.{◌≡◌, true};
ghost use Rattle.type_book_check.specs.Check.{ValidBook};
ghost use Rattle.type_book.specs.Book.{is_type};
ghost use Rattle.type_category.specs.Category.{category_of};
ghost use Rattle.tape_array_elements.specs.Element.{ElementChecked};

use resolve_field_types::FieldsCheck;
use tape_shape::array::is_last;
use tape_shape::{Shape, shape_of};
use type_category::type_category::AdsTypeCategory;

// The fields of array t's element, of type e, where it has any: they are resolved in the last dimension, before the array record, and
// kept in a plan.
pub fn element_check(
    book: &[u8],
    index: &[u32],
    width: u8,
    d: u8,
    t: u32,
    e: u32,
    category: AdsTypeCategory,
    plan: &mut [u64],
) -> FieldsCheck
    requires { ValidBook book.now × (is_type book.now e ≡ true) × (category ≡ category_of book.now width e) }
    ensures { ElementChecked book.now width d t e plan.old result plan.new }
{
    if is_last(book, d, t) {
        return match shape_of(category) {
            Shape::Map => resolve_field_plan::plan_fields_in(book, index, width, e, plan),
            _ => FieldsCheck::Fine,
        };
    }
    FieldsCheck::Fine
}
