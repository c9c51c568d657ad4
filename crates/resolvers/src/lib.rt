// Aliases and references, resolved by look-ups in the type book (the Rust's resolvers.rs). The functions whose names end in `_in` take
// a book that was checked once; the others check it.
#![tactic(auto)]

ghost use Rattle.std.specs.Prelude.{◌≡◌, true, false};
ghost use Rattle.type_book.specs.Book.{is_type, type_name_of};
ghost use Rattle.type_provider.specs.Find.{find, found_numbers};
ghost use Rattle.type_index.specs.Trust.{Trusted};
ghost use Rattle.type_book_check.specs.Check.{ValidBook};
ghost use Rattle.resolvers.specs.Resolve.{goes_on, is_followed, resolve_type, resolve_alias, resolve_indirection, ResolvedIs, LookedUp};
ghost use Rattle.type_book_check.specs.Given.{name as by_name};
ghost use Rattle.resolvers.specs.Calls.{resolution_numbers, resolution, root_resolution, root_alias, root_indirection, given_resolution};

use type_book_check::{GivenRoot, LACKING_ROOT, RootCheck};
use type_category::type_category::AdsTypeCategory;
use type_index::Trust;

// The maximum number of look-ups on a chain of aliases, or of aliases and references (the Rust's MAX_INDIRECTION_DEPTH is the same
// number). A cycle in the book ends there.
const MAX_ALIAS_DEPTH: usize = 32;

// What a chain comes to.
#[derive(Clone, Copy)]
pub enum Resolved {
    // The block at which it ends.
    Base(u32),
    // The block whose type name is not in the book: of a chain its last alias.
    NotFound(u32),
    // More look-ups than allowed.
    TooLong,
}

// What `resolve_alias` and `resolve_indirection` answer.
#[derive(Clone, Copy)]
pub enum Resolution {
    Block(u32),
    // 7, with the block whose type name is not in the book.
    NotFound(u32),
    // Any other refusal, by document 01's number.
    Refused(u8),
}

// ---- chains

// Whether a chain goes on from a type of that category: at aliases, and at references where they are followed.
pub fn goes_on(category: AdsTypeCategory, references: bool) -> bool
    ensures { result ≡ goes_on references category }
{
    match category {
        AdsTypeCategory::Alias => true,
        AdsTypeCategory::Reference => references,
        _ => false,
    }
}

fn is_followed(book: &[u8], width: u8, n: u32, references: bool) -> bool
    ensures { result ≡ is_followed references book.now width n }
{
    goes_on(AdsTypeCategory::determine(book, width, n), references)
}

// The type that block b names, as a field, as an array or as an alias, with what the call knows of its index.
pub fn named_by(book: &[u8], index: &[u32], trust: Trust, b: u32) -> Option<u32>
    requires { ValidBook book.now × Trusted book.now index.now trust }
    ensures { found_numbers result ≡ found_numbers (find book.now (type_name_of book.now b)) }
{
    type_index::type_of(book, index, trust, b)
}

// The same with any index.
pub fn named_in(book: &[u8], index: &[u32], b: u32) -> Option<u32>
    requires { ValidBook book.now }
    ensures { found_numbers result ≡ found_numbers (find book.now (type_name_of book.now b)) }
{
    named_by(book, index, Trust::Unknown, b)
}

// Follows the chain from type block t on.
fn follow(book: &[u8], index: &[u32], trust: Trust, width: u8, t: u32, references: bool) -> Resolved
    requires { ValidBook book.now × Trusted book.now index.now trust × (is_type book.now t ≡ true) }
    ensures { ResolvedIs book.now (resolve_type references book.now width t) result }
{
    let mut at = t;
    for _ in 0..MAX_ALIAS_DEPTH {
        if !is_followed(book, width, at, references) {
            return Resolved::Base(at);
        }
        let found = named_by(book, index, trust, at);
        let Some(u) = found else {
            return Resolved::NotFound(at);
        };
        at = u;
    }
    Resolved::TooLong
}

// Resolves type block t down to a type that is no alias, with what the call knows of its index.
pub fn resolve_alias_by(book: &[u8], index: &[u32], trust: Trust, width: u8, t: u32) -> Resolved
    requires { ValidBook book.now × Trusted book.now index.now trust × (is_type book.now t ≡ true) }
    ensures { ResolvedIs book.now (resolve_alias book.now width t) result }
{
    follow(book, index, trust, width, t, false)
}

// The same with any index.
pub fn resolve_alias_in(book: &[u8], index: &[u32], width: u8, t: u32) -> Resolved
    requires { ValidBook book.now × (is_type book.now t ≡ true) }
    ensures { ResolvedIs book.now (resolve_alias book.now width t) result }
{
    resolve_alias_by(book, index, Trust::Unknown, width, t)
}

// Resolves type block t down to a type that is neither an alias nor a reference.
pub fn resolve_indirection_in(book: &[u8], index: &[u32], width: u8, t: u32) -> Resolved
    requires { ValidBook book.now × (is_type book.now t ≡ true) }
    ensures { ResolvedIs book.now (resolve_indirection book.now width t) result }
{
    follow(book, index, Trust::Unknown, width, t, true)
}

// The type that block b names, as a field or as an array, with its aliases resolved.
pub fn look_up_in(book: &[u8], index: &[u32], width: u8, b: u32) -> Resolved
    requires { ValidBook book.now }
    ensures { LookedUp book.now width b result }
{
    let found = named_in(book, index, b);
    let Some(u) = found else {
        return Resolved::NotFound(b);
    };
    resolve_alias_in(book, index, width, u)
}

// ---- the calls: 1 to 5, then the chain from the root

fn resolve_root(book: &[u8], width: u8, t: u32, references: bool) -> Resolution
    requires { ValidBook book.now × (is_type book.now t ≡ true) }
    ensures { resolution_numbers result ≡ resolution_numbers (resolution (resolve_type references book.now width t)) }
{
    let mut index = [0u32; 16384];
    type_index::fill_names(book, &mut index);
    let resolved = follow(book, &index, Trust::Unknown, width, t, references);
    match resolved {
        Resolved::Base(u) => Resolution::Block(u),
        Resolved::NotFound(c) => Resolution::NotFound(c),
        Resolved::TooLong => Resolution::Refused(8),
    }
}

// The chain from a root that is given by its number.
fn resolve_numbered(buffer: &[u8], len: usize, width: u8, root: u64, references: bool) -> Resolution
    ensures { resolution_numbers result ≡ resolution_numbers (root_resolution references buffer.now len width root) }
{
    let check = type_book_check::check_root(buffer, len, root);
    match check {
        RootCheck::Root(t) => resolve_root(&buffer[..len], width, t, references),
        RootCheck::Refused(n) => Resolution::Refused(n),
    }
}

// Resolves the root, an alias or not, down to a type that is no alias. The book fills the first `len` bytes of the buffer.
pub fn resolve_alias(buffer: &[u8], len: usize, width: u8, root: u64) -> Resolution
    ensures { resolution_numbers result ≡ resolution_numbers (root_alias buffer.now len width root) }
{
    resolve_numbered(buffer, len, width, root, false)
}

// The same down to a type that is neither an alias nor a reference.
pub fn resolve_indirection(buffer: &[u8], len: usize, width: u8, root: u64) -> Resolution
    ensures { resolution_numbers result ≡ resolution_numbers (root_indirection buffer.now len width root) }
{
    resolve_numbered(buffer, len, width, root, true)
}

// The chain from a root that is given by its name.
fn resolve_named(buffer: &[u8], len: usize, width: u8, name: &[u8], references: bool) -> Resolution
    ensures { resolution_numbers result ≡ resolution_numbers (given_resolution references buffer.now len width (by_name name.now)) }
{
    let check = type_book_check::check_root_named(buffer, len, name);
    match check {
        GivenRoot::Block(t) => resolve_root(&buffer[..len], width, t, references),
        GivenRoot::Lacking => Resolution::NotFound(LACKING_ROOT),
        GivenRoot::Refused(n) => Resolution::Refused(n),
    }
}

// `resolve_alias` of a root that is given by its name.
pub fn resolve_alias_named(buffer: &[u8], len: usize, width: u8, name: &[u8]) -> Resolution
    ensures { resolution_numbers result ≡ resolution_numbers (given_resolution false buffer.now len width (by_name name.now)) }
{
    resolve_named(buffer, len, width, name, false)
}

// `resolve_indirection` of a root that is given by its name.
pub fn resolve_indirection_named(buffer: &[u8], len: usize, width: u8, name: &[u8]) -> Resolution
    ensures { resolution_numbers result ≡ resolution_numbers (given_resolution true buffer.now len width (by_name name.now)) }
{
    resolve_named(buffer, len, width, name, true)
}
