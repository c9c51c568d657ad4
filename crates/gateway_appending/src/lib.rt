// Appending where the book was checked once, as while a book is completed type by type: the book is not checked again, the name is looked up
// by an index of the book's names, and the new type goes into the index, so that it is the longer book's.
#![tactic(auto)]

ghost use Rattle.std.specs.Prelude.{◌≡◌, ◌<◌, take};
ghost use Rattle.type_provider.specs.Find.{searched};
ghost use Rattle.type_index.specs.Trust.{Trusted};
ghost use Rattle.type_book_check.specs.declared.BookCheck.TheVariants.{Valid};
ghost use Rattle.type_book_check.specs.Check.{check_book};
ghost use Rattle.type_cache.specs.Append.{is_known, append_refusal};
ghost use Rattle.gateway_lent_values.specs.Values.{Gives};
ghost use Rattle.gateway_appending.specs.Growth.{growth_numbers, trust_of, GoesIs, AppendedBy};

use gateway_lent_values::done_2;
use type_book::block;
use type_book::block::BLOCK;
use type_cache::{addition_refusal, copy, has_room};
use type_index::{Trust, find_in};
use type_index_grow::enter_last;

// The book's new length, where the index leads to every type of the longer book and where it may not; or document 01's number of the refusal.
#[derive(Clone, Copy)]
pub enum Growth {
    Entered(usize),
    Loose(usize),
    Refused(u8),
}

// What a caller says of its index: 1 that it leads to every type of the book.
fn trust_of(held: u8) -> Trust
    ensures { result ≡ trust_of held }
{
    if held == 1 {
        return Trust::Held;
    }
    Trust::Foreign
}

// Whether the book has a type of that name: it is not searched where the index is known to lead to every type.
fn is_known_by(book: &[u8], index: &[u32], trust: Trust, name: &[u8]) -> bool
    requires { Trusted book.now index.now trust }
    ensures { result ≡ is_known book.now name.now }
{
    let found = find_in(book, index, trust, name);
    match found {
        Some(_) => true,
        None => false,
    }
}

// Document 01's number of the first refusal, 0 for none, where the book was checked: the addition's, a known name, no room.
fn refusal_in(buffer: &[u8], len: usize, addition: &[u8], index: &[u32], trust: Trust) -> u8
    requires { (check_book buffer.now len ≡ Valid) × Trusted (take len buffer.now) index.now trust }
    ensures { result ≡ append_refusal buffer.now len addition.now }
{
    let of_addition = addition_refusal(addition);
    if of_addition != 0 {
        return of_addition;
    }
    if is_known_by(&buffer[..len], index, trust, block::name(addition, 0)) {
        return 4;
    }
    if has_room(buffer.len(), len, addition.len()) {
        return 0;
    }
    15
}

// Puts the new type, block n of the longer book, into an index that leads to every other, and says whether it could.
fn goes_on(longer: &[u8], index: &mut [u32], trust: Trust, n: u32) -> bool
    requires { n < searched longer.now }
    ensures { GoesIs trust longer.now index.old n result index.new }
{
    match trust {
        Trust::Held => enter_last(longer, index, n),
        Trust::Unknown => false,
        Trust::Foreign => false,
    }
}

// Appends one whole type, as `append` does, to a book that was checked. The book that is left is valid, and what the answer says of the index
// is so, so that the next type can be appended in the same way.
fn append_with(
    buffer: &mut [u8],
    len: usize,
    addition: &[u8],
    index: &mut [u32],
    trust: Trust,
) -> Growth
    requires { (check_book buffer.old len ≡ Valid) × Trusted (take len buffer.old) index.old trust }
    ensures { AppendedBy buffer.old len addition.now index.old trust result buffer.new index.new }
{
    let refusal = refusal_in(buffer, len, addition, index, trust);
    if refusal != 0 {
        return Growth::Refused(refusal);
    }
    let longer = copy(buffer, len, addition);
    if goes_on(&buffer[..longer], index, trust, (len / BLOCK) as u32) {
        return Growth::Entered(longer);
    }
    Growth::Loose(longer)
}

// The same, by what a caller says of its index.
pub fn append_in(
    buffer: &mut [u8],
    len: usize,
    addition: &[u8],
    index: &mut [u32],
    held: u8,
) -> Growth
    requires { (check_book buffer.old len ≡ Valid) × Trusted (take len buffer.old) index.old (trust_of held) }
    ensures { AppendedBy buffer.old len addition.now index.old (trust_of held) result buffer.new index.new }
{
    append_with(buffer, len, addition, index, trust_of(held))
}

// The new length and what is known of the index, or the refusal.
pub fn give_growth(answer: Growth, values: &mut [u64]) -> u8
    ensures { Gives (growth_numbers answer) values.old result values.new }
{
    match answer {
        Growth::Entered(n) => done_2(values, n as u64, 1),
        Growth::Loose(n) => done_2(values, n as u64, 0),
        Growth::Refused(n) => n,
    }
}
