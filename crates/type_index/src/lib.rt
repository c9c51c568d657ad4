// The look-up of a type by its name with a lent index, which spares the search of the book, and the making of such an index. An index has
// slots for the names of types and, where it is long enough, a hint for each block: the type that the block's type name finds. Both say
// only where to look first: nothing is believed before the names are compared, so an index may hold any numbers. Its "not there" is
// believed only once it was held against the book.
#![tactic(auto)]

ghost use Rattle.std.specs.Prelude.{◌≡◌, ◌<◌, length};
ghost use Rattle.type_book.specs.Book.{type_name_of};
ghost use Rattle.type_provider.specs.Find.{searched as searched_of};
ghost use Rattle.type_index.specs.Index.{FoundBy, index_fits, led_to, probe_of, free_of, entered, names_index, hint_for, hinted_index};
ghost use Rattle.type_index.specs.Parts.{HintsAt, PlaceIs, NextIs};
ghost use Rattle.type_index.specs.Trust.{leads, holds_all, trust_then, not_led, Trusted};

use enc_zeros::clear_numbers;
use type_book::block;
use type_marks::hash;
use type_provider::{find, is_named, searched};

// How many slots of an index are tried for a name.
const PROBES: usize = 64;

// The numbers that a caller lends as an index of names.
const INDEX: usize = 16384;

// What a call knows of its index: nothing yet; that it leads to each type of the book, so that its "not there" is the book's; or that it
// does not, as one of another book, or of one with more types than there are slots.
#[derive(Clone, Copy)]
pub enum Trust {
    Unknown,
    Held,
    Foreign,
}

// 6: the index is long enough.
pub fn index_fits(index: &[u32]) -> bool
    ensures { result ≡ index_fits index.now }
{
    index.len() >= INDEX
}

// ---- where a name is tried

// Where the hints begin in an index of len numbers: one for each block stands at its end, where that leaves two slots for each block;
// else there are none.
fn hints_at(book: &[u8], len: usize) -> usize
    ensures { HintsAt book.now len result }
{
    let n = searched(book) as usize;
    if len / 3 < n {
        return len;
    }
    len - n
}

// The slot of an index of len slots at which a name is tried first: its hash in the proportion of len to 2^32, which needs no division.
fn first_slot(name: &[u8], len: usize) -> usize
    requires { 0 < len }
    ensures { PlaceIs name.now len result }
{
    let share = (len as u64).min(0xffff_ffff);
    (hash(name) as u64 * share / 0x1_0000_0000) as usize
}

// The slot that is tried after another: the last one is followed by the first.
fn next_slot(at: usize, len: usize) -> usize
    requires { at < len }
    ensures { NextIs at len result }
{
    if at + 1 < len {
        return at + 1;
    }
    0
}

// The block that a slot holds, if it is a type block of that name. A slot may hold any number: nothing is believed
// before it is compared.
fn believe(book: &[u8], name: &[u8], slot: u32) -> Option<u32>
    ensures { result ≡ led_to book.now name.now slot }
{
    if slot == 0 {
        return None;
    }
    let n = slot - 1;
    if n < searched(book) && is_named(book, name, n) {
        return Some(n);
    }
    None
}

// The type block of that name, if the index leads to it: the slots are tried up to the first empty one, and the book is not searched.
fn probe(book: &[u8], index: &[u32], name: &[u8]) -> Option<u32>
    ensures { result ≡ probe_of book.now index.now name.now }
{
    let slots = hints_at(book, index.len());
    if slots == 0 {
        return None;
    }
    let mut at = first_slot(name, slots);
    for _ in 0..PROBES {
        let slot = index[at];
        if slot == 0 {
            return None;
        }
        let found = believe(book, name, slot);
        let None = found else {
            return found;
        };
        at = next_slot(at, slots);
    }
    None
}

// The hint for block b, 0 where the index has none.
fn hint_of(book: &[u8], index: &[u32], b: u32) -> u32 {
    let hints = &index[hints_at(book, index.len())..];
    hints.get(b as usize).copied().unwrap_or(0)
}

// ---- what an index is worth

// Whether the index leads to block n by its own name, if that is a type block.
#[tactic(auto, unfolding(crate::specs::Trust::leads))]
fn leads_to(book: &[u8], index: &[u32], n: u32) -> bool
    ensures { result ≡ leads book.now index.now n }
{
    !block::is_type(book, n) || matches!(probe(book, index, block::name(book, n)), Some(_))
}

// Whether the index leads to every type block of the book. Then it leads to every name that the book has.
pub fn holds_all(book: &[u8], index: &[u32]) -> bool
    ensures { result ≡ holds_all book.now index.now }
{
    (0..searched(book)).all(|i| leads_to(book, index, i))
}

// What a call knows of its index once a name was not there: the index is held against the book, if it was not before.
#[tactic(auto, unfolding(crate::specs::Trust::trust_then))]
pub fn hold_against(book: &[u8], index: &[u32], trust: Trust) -> Trust
    ensures { result ≡ trust_then book.now index.now trust }
{
    match trust {
        Trust::Held | Trust::Foreign => trust,
        Trust::Unknown => {
            if holds_all(book, index) {
                Trust::Held
            } else {
                Trust::Foreign
            }
        }
    }
}

// ---- the look-ups

// The answer where the index does not lead to a name: the index is believed if it was held against the book, else the book is searched.
fn not_led(book: &[u8], trust: Trust, name: &[u8]) -> Option<u32>
    ensures { result ≡ not_led book.now trust name.now }
{
    match trust {
        Trust::Held => None,
        Trust::Unknown => find(book, name),
        Trust::Foreign => find(book, name),
    }
}

// The type block of that name, whatever the index holds, by what is known of the index.
pub fn find_in(book: &[u8], index: &[u32], trust: Trust, name: &[u8]) -> Option<u32>
    requires { Trusted book.now index.now trust }
    ensures { FoundBy book.now name.now result }
{
    let found = probe(book, index, name);
    let Some(n) = found else {
        return not_led(book, trust, name);
    };
    Some(n)
}

// The same where nothing is known of the index.
pub fn find_by(book: &[u8], index: &[u32], name: &[u8]) -> Option<u32>
    ensures { FoundBy book.now name.now result }
{
    find_in(book, index, Trust::Unknown, name)
}

// The type that block b's type name finds, whatever the index holds: by the block's hint, else by the name.
pub fn type_of(book: &[u8], index: &[u32], trust: Trust, b: u32) -> Option<u32>
    requires { Trusted book.now index.now trust }
    ensures { FoundBy book.now (type_name_of book.now b) result }
{
    let name = block::type_name(book, b);
    let found = believe(book, name, hint_of(book, index, b));
    let Some(t) = found else {
        return find_in(book, index, trust, name);
    };
    Some(t)
}

// ---- the making of an index

// The first empty slot for a name, or the index's length where those that are tried are taken.
pub fn free_slot(book: &[u8], index: &[u32], name: &[u8]) -> usize
    ensures { result ≡ free_of book.now index.now name.now }
{
    let slots = hints_at(book, index.len());
    if slots == 0 {
        return index.len();
    }
    let mut at = first_slot(name, slots);
    for _ in 0..PROBES {
        if index[at] == 0 {
            return at;
        }
        at = next_slot(at, slots);
    }
    index.len()
}

// Puts block n into the index, if it is a type block and a slot is free.
fn enter(book: &[u8], index: &mut [u32], n: u32)
    requires { n < searched_of book.now }
    ensures { index.new ≡ entered book.now index.old n }
{
    if !block::is_type(book, n) {
        return;
    }
    let at = free_slot(book, index, block::name(book, n));
    if index.len() <= at {
        return;
    }
    index[at] = n + 1;
}

// The hint for block b, by the slots: 0 where they do not lead to its type name, which is empty or missing then, as a rule.
#[tactic(auto, unfolding(crate::specs::Index::hint_for))]
fn hint(book: &[u8], index: &[u32], b: u32) -> u32
    ensures { result ≡ hint_for (probe_of book.now index.now (type_name_of book.now b)) }
{
    match probe(book, index, block::type_name(book, b)) {
        Some(t) => t + 1,
        None => 0,
    }
}

// Puts a hint for each block into the index, if it is long enough for them.
fn enter_hints(book: &[u8], index: &mut [u32])
    ensures { index.new ≡ hinted_index book.now index.old }
{
    let first = hints_at(book, index.len());
    for i in first..index.len() {
        index[i] = hint(book, index, (i - first) as u32);
    }
}

// Makes an index of the names of the book's types: a number is 0, or one more than a type block's. Four slots a type serve well. A block
// that finds no free slot is left out: `find_by` then searches the book. For a call or two; `fill_index` serves more.
pub fn fill_names(book: &[u8], index: &mut [u32])
    ensures { index.new ≡ names_index book.now (length index.old) }
{
    clear_numbers(index);
    for i in 0..searched(book) {
        enter(book, index, i);
    }
}

// The same with a hint for each block, where the index has three numbers or more for each: they cost about what one walk of all types
// gains by them.
pub fn fill_index(book: &[u8], index: &mut [u32])
    ensures { index.new ≡ hinted_index book.now (names_index book.now (length index.old)) }
{
    fill_names(book, index);
    enter_hints(book, index);
}
