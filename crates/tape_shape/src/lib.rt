// The shape of a value, by its category, and of an array, by its dimensions.
#![tactic(auto)]

ghost use Rattle.std.specs.Prelude.{◌≡◌};
ghost use Rattle.tape_shape.specs.Value.{shape_of};

pub mod array;

use type_category::type_category::AdsTypeCategory;

// How a value is read: by its fields, by its elements, or as a whole.
#[derive(Clone, Copy)]
pub enum Shape {
    Map,
    Array,
    Leaf,
}

// The shape of a category.
pub fn shape_of(category: AdsTypeCategory) -> Shape
    ensures { result ≡ shape_of category }
{
    match category {
        AdsTypeCategory::Array => Shape::Array,
        AdsTypeCategory::Struct | AdsTypeCategory::FunctionBlock | AdsTypeCategory::Union =>
            Shape::Map,
        _ => Shape::Leaf,
    }
}
