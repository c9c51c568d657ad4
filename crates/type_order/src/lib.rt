// Whether the types of a book have different names, by an order of the names: time n log n for any names, where hashes decide nothing if
// the names were made to have one hash. The sorting promises nothing. What it leaves is held against the book, and only that is believed.
#![tactic(auto)]

ghost use Rattle.std.specs.Prelude.{◌≡◌, ◌≤◌, ◌<◌, max, MatchOption};
ghost use Rattle.type_book.specs.Book.{blocks as blocks_of};
ghost use Rattle.type_order.specs.Names.{word_at, LessIs, LessAt, OrderDecided};
ghost use Rattle.type_order.specs.Ranks.{number_at, RisesTo, RankIs, RankedIs};

use enc_number::le::le_value;
use type_book::block;

// What is known of the names: they are all different, two types have one name, or neither was found. The last does not happen, and the
// proof does not need to know.
#[derive(Clone, Copy)]
pub enum Order {
    Distinct,
    Doubled,
    Unknown,
}

// So many numbers of 32 bits hold one of 16 bits for each block that a book may have.
const MOST: usize = 32768;

// ---- an order of names

// The eight bytes from place 8 * k on as one number, or those that there are. That product may not fit, so k is looked at first.
#[tactic(auto, unfolding(crate::specs::Names::word_at))]
fn word(name: &[u8], k: usize) -> u64
    ensures { result ≡ word_at name.now k }
{
    if k <= name.len() / 8 {
        return le_value(&name[8 * k..]);
    }
    le_value(&name[name.len()..])
}

// Whether a name stands before another: by the first eight bytes in which they differ, as numbers.
fn less(a: &[u8], b: &[u8]) -> bool
    ensures { LessIs a.now b.now result }
{
    let words = a.len().max(b.len()) / 8 + 1;
    for k in 0..words {
        let x = word(a, k);
        let y = word(b, k);
        if x < y {
            return true;
        }
        if y < x {
            return false;
        }
    }
    false
}

fn less_at(book: &[u8], a: u32, b: u32) -> bool
    ensures { LessAt book.now a b result }
{
    less(block::name(book, a), block::name(book, b))
}

// ---- the sorting, which promises nothing: two numbers of 16 bits stand in each of 32, one past the end is 0, and one put there is lost

#[tactic(auto, unfolding(crate::specs::Ranks::number_at))]
fn at(numbers: &[u32], i: usize) -> u32
    ensures { (result ≡ number_at numbers.now i) × (result < 65536) }
{
    let k = i / 2;
    let half = (i % 2) as u32;
    if k < numbers.len() {
        return (numbers[k] >> (16 * half)) % 65536;
    }
    0
}

fn with_lower(number: u32, x: u32) -> u32
    requires { x < 65536 }
{
    number / 65536 * 65536 + x
}

fn with_upper(number: u32, x: u32) -> u32
    requires { x < 65536 }
{
    number % 65536 + x * 65536
}

fn put(numbers: &mut [u32], i: usize, x: u32)
    requires { x < 65536 }
{
    let k = i / 2;
    if k < numbers.len() {
        if i % 2 == 0 {
            numbers[k] = with_lower(numbers[k], x);
        } else {
            numbers[k] = with_upper(numbers[k], x);
        }
    }
}

// Lists the type blocks as they come, and counts them.
fn list_types(book: &[u8], order: &mut [u32]) -> usize
    requires { blocks_of book.now ≤ 65536 }
    ensures { result ≤ 65536 }
{
    let n = block::blocks(book) as u32;
    let mut count = 0;
    for i in 0..n {
        // Each block is put there, and stays if it is a type: that needs no branch.
        put(order, count, i);
        count += block::is_type(book, i) as usize;
    }
    count
}

// Whether the next number of a merge is that at i of the first run and not that at j of the second. Of equal names the first run's comes
// first, so that types of one name stay in the order of their blocks.
fn takes_first(book: &[u8], from: &[u32], i: usize, mid: usize, j: usize, end: usize) -> bool {
    i < mid && (j >= end || !less_at(book, at(from, j), at(from, i)))
}

// Merges the runs from `start` to `mid` and from `mid` to `end`. What was not taken of the first run was taken of the second.
fn merge(book: &[u8], from: &[u32], to: &mut [u32], start: usize, mid: usize, end: usize)
    requires { (start ≤ 65536) × (mid ≤ 65536) × (end ≤ 65536) }
{
    let mut i = start;
    for k in start..end {
        let j = mid + (k - i);
        if takes_first(book, from, i, mid, j, end) {
            put(to, k, at(from, i));
            i += 1;
        } else {
            put(to, k, at(from, j));
        }
    }
}

// Merges each two runs of so many numbers into one of twice as many.
fn merge_runs(book: &[u8], from: &[u32], to: &mut [u32], n: usize, run: usize)
    requires { (n ≤ 65536) × (0 < run) × (run ≤ 131072) }
{
    for start in (0..n).step_by(2 * run) {
        let mid = (start + run).min(n);
        let end = (start + 2 * run).min(n);
        merge(book, from, to, start, mid, end);
    }
}

fn sort(book: &[u8], order: &mut [u32], other: &mut [u32], n: usize)
    requires { n ≤ 65536 }
{
    let mut run = 1;
    while run < n {
        merge_runs(book, order, other, n, run);
        merge_runs(book, other, order, n, 2 * run);
        run *= 4;
    }
}

// Stores the rank of each listed block, for `has_rank` to look at.
fn rank(order: &[u32], ranks: &mut [u32], n: usize)
    requires { n ≤ 65536 }
{
    for i in 0..n {
        put(ranks, at(order, i) as usize, i as u32);
    }
}

// ---- what the sorting left, held against the book

// The first place whose name the one before it does not stand before; none, where all n names rise.
fn first_fall(book: &[u8], order: &[u32], n: usize) -> Option<usize>
    ensures { MatchOption result (RisesTo book.now order.now (max 1 n)) (λ r. RisesTo book.now order.now r) }
{
    for i in 1..n {
        if !less_at(book, at(order, i - 1), at(order, i)) {
            return Some(i);
        }
    }
    None
}

// A type block has a rank below n, at which it is listed.
fn has_rank(book: &[u8], order: &[u32], ranks: &[u32], n: usize, b: u32) -> bool
    ensures { RankIs book.now order.now n b result }
{
    if !block::is_type(book, b) {
        return true;
    }
    let r = at(ranks, b as usize) as usize;
    r < n && at(order, r) == b
}

fn all_ranked(book: &[u8], order: &[u32], ranks: &[u32], n: usize) -> bool
    requires { blocks_of book.now ≤ 65536 }
    ensures { RankedIs book.now order.now n result }
{
    let count = block::blocks(book) as u32;
    for b in 0..count {
        if !has_rank(book, order, ranks, n, b) {
            return false;
        }
    }
    true
}

// Why two neighbours do not rise: they have one name, or the sorting left them so.
fn not_rising(book: &[u8], a: u32, b: u32) -> Order
    ensures { OrderDecided book.now result }
{
    if a < b
        && (b as usize) < block::blocks(book)
        && block::is_type(book, a)
        && type_provider::is_named(book, block::name(book, a), b)
    {
        return Order::Doubled;
    }
    Order::Unknown
}

fn decide_in(book: &[u8], order: &mut [u32], other: &mut [u32]) -> Order
    requires { blocks_of book.now ≤ 65536 }
    ensures { OrderDecided book.now result }
{
    let n = list_types(book, order);
    sort(book, order, other, n);
    match first_fall(book, order, n) {
        Some(r) => not_rising(book, at(order, r - 1), at(order, r)),
        None => {
            rank(order, other, n);
            if all_ranked(book, order, other, n) {
                Order::Distinct
            } else {
                Order::Unknown
            }
        }
    }
}

// Whether the types of a book of at most 65,536 blocks have different names. The lent numbers are for its use: with fewer than 32,768 it
// may find neither. It takes as many again on the stack, 128 KiB.
pub fn decide(book: &[u8], lent: &mut [u32]) -> Order
    requires { blocks_of book.now ≤ 65536 }
    ensures { OrderDecided book.now result }
{
    let mut other = [0u32; MOST];
    decide_in(book, lent, &mut other)
}
