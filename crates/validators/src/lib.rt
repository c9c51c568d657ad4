// Tests on a type before its bytes are read or written.
#![tactic(auto)]

ghost use Rattle.std.specs.Prelude.{◌≡◌};
ghost use Rattle.validators.specs.Validate.{validity_refusal, unknown_of, same_id, is_in, type_id_refusal, integer_refusal, category_refusal, size_refusal};

use type_book::block;
use type_category::type_category::AdsTypeCategory;
use type_category_number::number;
use type_id::AdsTypeId;

// Pointers, references and interfaces, as a set of categories.
const INDIRECT: u16 = 0xd000;

#[derive(Clone, Copy)]
pub enum Validity {
    Valid,
    // The type is not one of those expected.
    TypeMismatch,
    // The number of bytes is not the one expected.
    SizeMismatch,
}

// Whether block n has exactly the expected type id.
#[tactic(auto, unfolding(crate::specs::Validate::type_id_refusal))]
pub fn validate_type_id(book: &[u8], n: u32, expected: AdsTypeId) -> Validity
    ensures { validity_refusal result ≡ type_id_refusal book.now n expected }
{
    if same_id(block::type_id(book, n), expected) {
        return Validity::Valid;
    }
    Validity::TypeMismatch
}

// The same for an integer of `size` bytes, which a pointer, a reference or an interface may hold too, if it is as wide as
// the platform's pointers.
pub fn validate_integer_type_id(
    book: &[u8],
    n: u32,
    expected: AdsTypeId,
    width: u8,
    size: usize,
) -> Validity
    ensures { validity_refusal result ≡ integer_refusal book.now n expected width size }
{
    if is_in(AdsTypeCategory::determine(book, width, n), INDIRECT) {
        if width as usize == size {
            return Validity::Valid;
        }
        return Validity::SizeMismatch;
    }
    validate_type_id(book, n, expected)
}

// Whether the category of block n is in a set: bit i of `expected` stands for the category of number i.
pub fn validate_type_category(book: &[u8], n: u32, expected: u16, width: u8) -> Validity
    ensures { validity_refusal result ≡ category_refusal book.now n expected width }
{
    if is_in(AdsTypeCategory::determine(book, width, n), expected) {
        return Validity::Valid;
    }
    Validity::TypeMismatch
}

// Whether there are exactly as many bytes as a type takes.
#[tactic(auto, unfolding(crate::specs::Validate::size_refusal))]
pub fn validate_exact_size(bytes: &[u8], expected: usize) -> Validity
    ensures { validity_refusal result ≡ size_refusal bytes.now expected }
{
    if bytes.len() == expected {
        return Validity::Valid;
    }
    Validity::SizeMismatch
}

// Whether two type ids are the same. Unknown of a number that has a name is not the named id.
#[tactic(auto, unfolding(crate::specs::Validate::same_id))]
fn same_id(a: AdsTypeId, b: AdsTypeId) -> bool
    ensures { result ≡ same_id a b }
{
    a.to_u32() == b.to_u32() && unknown(a) == unknown(b)
}

// 1 for an unknown type id, 0 for a named one.
fn unknown(id: AdsTypeId) -> u8
    ensures { result ≡ unknown_of id }
{
    match id {
        AdsTypeId::Unknown(_) => 1,
        _ => 0,
    }
}

// Whether a category is in a set.
fn is_in(category: AdsTypeCategory, set: u16) -> bool
    ensures { result ≡ is_in category set }
{
    (set >> number(category)) % 2 == 1
}
