// What a type's name alone tells of it.
#![tactic(auto)]

ghost use Rattle.std.specs.Prelude.{◌≡◌};
ghost use Rattle.type_names.specs.Text.{is_one_of};
ghost use Rattle.type_names.specs.Names.{is_pointer_name, is_sub_range_name, time_names, pointer_sized_names, is_primitive_name};

use crate::text::{contains, contains_byte, starts_with};
use type_book::block::same_name;

pub mod text;

// Pointers that no flag marks.
#[tactic(auto, unfolding(crate::specs::Names::is_pointer_name, crate::specs::Text::is_one_of))]
pub fn is_pointer_name(name: &[u8]) -> bool
    ensures { result ≡ is_pointer_name name.now }
{
    same_name(name, b"PVOID") || same_name(name, b"PCCH") || starts_with(name, b"POINTER TO")
}

// A parenthesis is looked for first: few names have one, and a byte is found faster than two.
#[tactic(auto, unfolding(crate::specs::Names::is_sub_range_name))]
pub fn is_sub_range_name(name: &[u8]) -> bool
    ensures { result ≡ is_sub_range_name name.now }
{
    contains_byte(name, b'(') && contains_byte(name, b')') && contains(name, b"..")
}

// Primitives whose type id does not tell it.
#[tactic(auto, unfolding(crate::specs::Names::is_primitive_name))]
pub fn is_primitive_name(name: &[u8]) -> bool
    ensures { result ≡ is_primitive_name name.now }
{
    is_time_name(name) || is_pointer_sized_name(name)
}

// The date and time types of IEC 61131-3.
#[tactic(auto, unfolding(crate::specs::Text::is_one_of))]
fn is_time_name(name: &[u8]) -> bool
    ensures { result ≡ is_one_of name.now time_names }
{
    same_name(name, b"TOD")
        || same_name(name, b"DT")
        || same_name(name, b"TIME")
        || same_name(name, b"DATE")
        || same_name(name, b"LTIME")
        || same_name(name, b"TIME_OF_DAY")
        || same_name(name, b"DATE_AND_TIME")
}

// The integers that are as wide as a pointer.
#[tactic(auto, unfolding(crate::specs::Text::is_one_of))]
fn is_pointer_sized_name(name: &[u8]) -> bool
    ensures { result ≡ is_one_of name.now pointer_sized_names }
{
    same_name(name, b"UXINT")
        || same_name(name, b"XINT")
        || same_name(name, b"XWORD")
        || same_name(name, b"__UXINT")
        || same_name(name, b"__XINT")
        || same_name(name, b"__XWORD")
}
