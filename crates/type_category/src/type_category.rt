// Category of a TwinCAT data type: a high-level classification of its memory layout.
ghost use Rattle.std.specs.Prelude.{◌≡◌, ◌+◌};
ghost use Rattle.type_book.specs.Book.{offset_of};
ghost use Rattle.type_category.specs.Number.{category_numbers};
ghost use Rattle.type_category.specs.Category.{is_alias, id_step, is_union, is_empty_struct, bare_category, methods_category, fields_category, size_category, complex_category, simple_category, category_of};

use type_book::block;
use type_book::block::same_name;
use type_id::AdsTypeId;
use type_names::text::starts_with;
use type_names::{is_pointer_name, is_primitive_name, is_sub_range_name};

#[derive(Clone, Copy)]
pub enum AdsTypeCategory {
    // Uninitialized or unknown data type.
    None,
    // Simple base data type (BOOL, INT, REAL).
    Primitive,
    // Type alias pointing to a base type.
    Alias,
    // Enumeration type.
    Enum,
    // Array data type.
    Array,
    // Structure data type.
    Struct,
    // Function block (POU) instance.
    FunctionBlock,
    // Program (POU) instance.
    Program,
    // Function (POU) instance.
    Function,
    // Sub-range type.
    SubRange,
    // String type (STRING, WSTRING).
    String,
    // Bitset type.
    Bitset,
    // Pointer type (POINTER TO .., PVOID).
    Pointer,
    // Union type (overlapping memory fields).
    Union,
    // Reference type (REFERENCE TO ..).
    Reference,
    // Interface pointer.
    Interface,
}

impl AdsTypeCategory {
    // The category of block n, for pointers of `width` bytes. The width tells interfaces from function blocks where both
    // have methods. An empty function block with no interface is taken for an interface.
    #[tactic(auto, unfolding(crate::specs::Number::category_numbers, crate::specs::Category::category_of, crate::specs::Category::is_pointer, crate::specs::Category::is_reference))]
    pub fn determine(book: &[u8], width: u8, n: u32) -> AdsTypeCategory
        ensures { category_numbers result ≡ category_numbers (category_of book.now width n) }
    {
        let name = block::name(book, n);
        if block::is_pointer(book, n) || is_pointer_name(name) {
            return AdsTypeCategory::Pointer;
        }
        if block::is_reference(book, n) || starts_with(name, b"REFERENCE TO") {
            return AdsTypeCategory::Reference;
        }
        if 0 < block::dimensions(book, n) {
            return AdsTypeCategory::Array;
        }
        if block::is_enum(book, n) {
            return AdsTypeCategory::Enum;
        }
        if is_sub_range_name(name) {
            return AdsTypeCategory::SubRange;
        }
        simple(book, width, n)
    }
}

// Aliases, then primitives, bitsets and strings.
#[tactic(auto, unfolding(crate::specs::Category::simple_category, crate::specs::Category::or_else))]
fn simple(book: &[u8], width: u8, n: u32) -> AdsTypeCategory
    ensures { result ≡ simple_category book.now width n }
{
    let name = block::name(book, n);
    if is_alias(book, n) {
        if same_name(name, b"BOOL") {
            return AdsTypeCategory::Primitive;
        }
        return AdsTypeCategory::Alias;
    }
    if let Some(category) = by_type_id(block::type_id(book, n)) {
        return category;
    }
    if is_primitive_name(name) {
        return AdsTypeCategory::Primitive;
    }
    complex(book, width, n)
}

// A type name with neither fields nor methods.
#[tactic(auto, unfolding(crate::specs::Category::is_alias))]
fn is_alias(book: &[u8], n: u32) -> bool
    ensures { result ≡ is_alias book.now n }
{
    0 < block::type_name(book, n).len()
        && block::fields(book, n) == 0
        && !block::has_methods(book, n)
}

// Primitives, bitsets and strings.
fn by_type_id(id: AdsTypeId) -> Option<AdsTypeCategory>
    ensures { result ≡ id_step id }
{
    match id {
        AdsTypeId::Int8
        | AdsTypeId::UInt8
        | AdsTypeId::Int16
        | AdsTypeId::UInt16
        | AdsTypeId::Int32
        | AdsTypeId::UInt32
        | AdsTypeId::Int64
        | AdsTypeId::UInt64
        | AdsTypeId::Real32
        | AdsTypeId::Real64
        | AdsTypeId::Real80 => Some(AdsTypeCategory::Primitive),
        AdsTypeId::Bit => Some(AdsTypeCategory::Bitset),
        AdsTypeId::String | AdsTypeId::WString => Some(AdsTypeCategory::String),
        AdsTypeId::Void | AdsTypeId::MaxTypes | AdsTypeId::BigType | AdsTypeId::Unknown(_) => {
            None
        }
    }
}

// Unions, interfaces, function blocks and structs.
#[tactic(auto, unfolding(crate::specs::Category::complex_category))]
fn complex(book: &[u8], width: u8, n: u32) -> AdsTypeCategory
    ensures { result ≡ complex_category book.now width n }
{
    if is_union(book, n) {
        return AdsTypeCategory::Union;
    }
    if block::has_methods(book, n) {
        return by_methods(book, width, n);
    }
    if 0 < block::fields(book, n) {
        return by_fields(book, n);
    }
    by_size(book, n)
}

// The memory of a union's fields overlaps: the first two start at one offset.
#[tactic(auto, unfolding(crate::specs::Category::is_union))]
fn is_union(book: &[u8], n: u32) -> bool
    ensures { result ≡ is_union book.now n }
{
    1 < block::fields(book, n)
        && block::type_name(book, n).len() == 0
        && !block::has_methods(book, n)
        && first_offset(book, n) == second_offset(book, n)
}

// The offset of a type's first field, whose block is the next one. It is read from block n on, since n + 1 may not fit.
fn first_offset(book: &[u8], n: u32) -> u32
    ensures { result ≡ offset_of book.now (n + 1) }
{
    block::u32_at(book, n, block::BLOCK + 4)
}

// The offset of a type's second field.
fn second_offset(book: &[u8], n: u32) -> u32
    ensures { result ≡ offset_of book.now (n + 2) }
{
    block::u32_at(book, n, 2 * block::BLOCK + 4)
}

// Function blocks and interfaces often expose methods.
#[tactic(auto, unfolding(crate::specs::Category::methods_category))]
fn by_methods(book: &[u8], width: u8, n: u32) -> AdsTypeCategory
    ensures { result ≡ methods_category book.now width n }
{
    if block::has_tc_implements(book, n) {
        return AdsTypeCategory::FunctionBlock;
    }
    if block::fields(book, n) == 0 || block::size(book, n) == width as u32 {
        return AdsTypeCategory::Interface;
    }
    AdsTypeCategory::FunctionBlock
}

// If the first user-defined field does not start at offset 0, the type has hidden state (a function block).
#[tactic(auto, unfolding(crate::specs::Category::fields_category))]
fn by_fields(book: &[u8], n: u32) -> AdsTypeCategory
    ensures { result ≡ fields_category book.now n }
{
    if 0 < first_offset(book, n) {
        return AdsTypeCategory::FunctionBlock;
    }
    AdsTypeCategory::Struct
}

// A type with neither fields nor methods.
#[tactic(auto, unfolding(crate::specs::Category::size_category))]
fn by_size(book: &[u8], n: u32) -> AdsTypeCategory
    ensures { result ≡ size_category book.now n }
{
    if is_empty_struct(book, n) {
        return AdsTypeCategory::Struct;
    }
    if block::has_tc_implements(book, n) {
        return AdsTypeCategory::FunctionBlock;
    }
    by_bare_size(block::size(book, n))
}

// A named type of size 0.
#[tactic(auto, unfolding(crate::specs::Category::is_empty_struct))]
fn is_empty_struct(book: &[u8], n: u32) -> bool
    ensures { result ≡ is_empty_struct book.now n }
{
    0 < block::name(book, n).len() && block::size(book, n) == 0
}

// What is left goes by its size alone.
#[tactic(auto, unfolding(crate::specs::Category::bare_category))]
fn by_bare_size(size: u32) -> AdsTypeCategory
    ensures { result ≡ bare_category size }
{
    if 8 < size {
        if size % 4 == 0 {
            return AdsTypeCategory::FunctionBlock;
        }
        return AdsTypeCategory::None;
    }
    if size == 4 || size == 8 {
        return AdsTypeCategory::Interface;
    }
    AdsTypeCategory::None
}
