// The blocks that a walk has still to visit and those that it has visited, as numbers in the lent scratch: a stack in 0 to 4,095, a bit
// for each of 65,536 blocks in 4,096 to 6,143. A name that the book lacks has no block: it was visited if a listed block names it. In 6,144
// to 8,191 its hash has a bit, so that the list is searched only for a name that may stand in it.
// These functions are for the walks alone, which show what their `requires` ask for.
#![tactic(auto)]

ghost use Rattle.std.specs.Prelude.{◌≡◌, true, ◌≤◌, ◌<◌, length, take as first};
ghost use Rattle.type_book.specs.Book.{is_type};
ghost use Rattle.type_book_check.specs.Check.{ValidBook};
ghost use Rattle.resolve_walk_scratch.specs.Parts.{parts_kind};
ghost use Rattle.resolve_walk_scratch.specs.Scratch.{marked_in, lacking_bit, is_part, names_it, has_ref, was_listed, BitIn, Took, BlockMarked, Pushed, MarkedAndPushed};

use type_book::block;
use type_category::type_category::AdsTypeCategory;
use type_marks::hash;

// The first number of the bits: the stack before it has an entry for each name that a walk may visit.
const MARKS: usize = 4096;

// The first bit of the names that the book lacks, after those of the blocks.
const LACKING: u32 = 65536;

// What a type is made of: the type that an array names, the types of fields, or nothing that is walked.
#[derive(Clone, Copy)]
pub enum ScratchParts {
    Element,
    Fields,
    Nothing,
}

// A block that was taken off the stack, and the entries that are left.
#[derive(Clone, Copy)]
pub struct Taken {
    pub block: u32,
    pub depth: usize,
}

// ---- the bits and the stack

pub fn marked(scratch: &[u32], t: u32) -> bool
    requires { BitIn scratch.now t }
    ensures { result ≡ marked_in scratch.now t }
{
    let i = MARKS + (t / 32) as usize;
    (scratch[i] >> (t % 32)) % 2 == 1
}

pub fn mark(scratch: &mut [u32], t: u32)
    requires { BitIn scratch.old t }
    ensures { BlockMarked scratch.old t scratch.new }
{
    let i = MARKS + (t / 32) as usize;
    scratch[i] = scratch[i] | (1 << (t % 32));
}

// Takes the top block off the stack. An entry t * 65536 + k stands for the k blocks after block t, the last one taken first; with
// k = 0 for block t itself. So a type of many fields takes one entry.
pub fn take(scratch: &mut [u32], depth: usize) -> Taken
    requires { (0 < depth) × (depth ≤ 4096) × (6144 ≤ length scratch.old) }
    ensures { Took scratch.old depth result scratch.new }
{
    let d = depth - 1;
    let e = scratch[d];
    let t = e / 65536;
    let k = e % 65536;
    if k == 0 {
        return Taken { block: t, depth: d };
    }
    if k == 1 {
        return Taken {
            block: t + 1,
            depth: d,
        };
    }
    scratch[d] = e - 1;
    Taken {
        block: t + k,
        depth,
    }
}

// ---- what is laid on the stack

pub fn parts_of(category: AdsTypeCategory) -> ScratchParts
    ensures { result ≡ parts_kind category }
{
    match category {
        AdsTypeCategory::Array => ScratchParts::Element,
        AdsTypeCategory::Struct => ScratchParts::Fields,
        AdsTypeCategory::Union => ScratchParts::Fields,
        AdsTypeCategory::FunctionBlock => ScratchParts::Fields,
        _ => ScratchParts::Nothing,
    }
}

// Lays the parts of type t, by its category, on the stack.
pub fn push(
    book: &[u8],
    scratch: &mut [u32],
    depth: usize,
    t: u32,
    category: AdsTypeCategory,
) -> usize
    requires { ValidBook book.now × (is_type book.now t ≡ true) × (depth < 4096) × (6144 ≤ length scratch.old) }
    ensures { Pushed book.now category scratch.old depth t result scratch.new }
{
    let kind = parts_of(category);
    match kind {
        ScratchParts::Element => {
            scratch[depth] = t * 65536;
            depth + 1
        }
        ScratchParts::Fields => {
            let n = block::fields(book, t);
            if n == 0 {
                return depth;
            }
            scratch[depth] = t * 65536 + n;
            depth + 1
        }
        ScratchParts::Nothing => depth,
    }
}

// Marks type block t visited, and lays on the parts of u, which t comes to, by its category. The alias's target u is not marked:
// it may be met by its own name later.
pub fn expand(
    book: &[u8],
    scratch: &mut [u32],
    depth: usize,
    t: u32,
    u: u32,
    category: AdsTypeCategory,
) -> usize
    requires { ValidBook book.now × (is_type book.now t ≡ true) × (is_type book.now u ≡ true) × (depth < 4096) × (6144 ≤ length scratch.old) }
    ensures { MarkedAndPushed book.now category scratch.old depth t u result scratch.new }
{
    mark(scratch, t);
    push(book, scratch, depth, u, category)
}

// ---- names that the book lacks

// Whether block b names a type as a field or as an array, and is no alias: aliases have no dimensions.
pub fn is_part(book: &[u8], b: u32) -> bool
    ensures { result ≡ is_part book.now b }
{
    !block::is_type(book, b) || block::dimensions(book, b) > 0
}

pub fn names_it(book: &[u8], b: u32, name: &[u8]) -> bool
    ensures { result ≡ names_it book.now b name.now }
{
    block::same_name(block::type_name(book, b), name) && is_part(book, b)
}

// Whether one of the first n listed blocks names it: a name that the book lacks was visited.
pub fn in_list(book: &[u8], list: &[u32], n: usize, name: &[u8]) -> bool
    requires { n ≤ length list.now }
    ensures { result ≡ has_ref book.now (first n list.now) name.now }
{
    for b in &list[..n] {
        if names_it(book, *b, name) {
            return true;
        }
    }
    false
}

// The bit of a name that the book lacks: names of one hash share it.
pub fn lacking_bit(name: &[u8]) -> u32
    ensures { result ≡ lacking_bit name.now }
{
    LACKING + hash(name) % 65536
}

// Whether one of the first n listed blocks names it, where that must have set its bit.
pub fn was_listed(book: &[u8], scratch: &[u32], list: &[u32], n: usize, name: &[u8]) -> bool
    requires { (n ≤ length list.now) × (8192 ≤ length scratch.now) }
    ensures { result ≡ was_listed book.now scratch.now (first n list.now) name.now }
{
    marked(scratch, lacking_bit(name)) && in_list(book, list, n, name)
}
