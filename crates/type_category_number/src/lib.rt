// The number of a category: its place in the Rust's declaration, from 0 on.
#![tactic(auto)]

ghost use Rattle.std.specs.Prelude.{◌≡◌};
ghost use Rattle.type_category.specs.Number.{category_number, category_at};

use type_category::type_category::AdsTypeCategory;

// The number of a category.
pub fn number(category: AdsTypeCategory) -> u32
    ensures { result ≡ category_number category }
{
    category as u32
}

// The category of a number; past the last one it is the last.
#[tactic(auto, unfolding(type_category::specs::Number::category_at))]
pub fn category_at(n: u32) -> AdsTypeCategory
    ensures { result ≡ category_at n }
{
    match n {
        0 => AdsTypeCategory::None,
        1 => AdsTypeCategory::Primitive,
        2 => AdsTypeCategory::Alias,
        3 => AdsTypeCategory::Enum,
        4 => AdsTypeCategory::Array,
        5 => AdsTypeCategory::Struct,
        6 => AdsTypeCategory::FunctionBlock,
        7 => AdsTypeCategory::Program,
        8 => AdsTypeCategory::Function,
        9 => AdsTypeCategory::SubRange,
        10 => AdsTypeCategory::String,
        11 => AdsTypeCategory::Bitset,
        12 => AdsTypeCategory::Pointer,
        13 => AdsTypeCategory::Union,
        14 => AdsTypeCategory::Reference,
        _ => AdsTypeCategory::Interface,
    }
}
