// The UTF-8 decoder, one code point at a time, and whether a text is UTF-8.
#![tactic(auto)]

ghost use Rattle.std.specs.Prelude.{◌≡◌, true, ◌&&◌, ◌+◌, ◌-◌, ◌<◌, ◌≤◌, length, get_or, take, drop, eqb, leb};
ghost use Rattle.enc_ascii.specs.Ascii.{is_ascii};
ghost use Rattle.enc_utf_8_decoder.specs.After.{place_after, four_fit, AsciiHere, PassedTo};
ghost use Rattle.enc_utf_8.specs.Utf8.{lower_of, upper_of, state, next_from, next_at, well_formed, ValidTo, trail};

use enc_ascii::is_ascii;
use enc_utf_8::Char;
use enc_utf_8_rows::goes_through;

// The lowest byte that may follow a lead byte: above 80h where less would be an overlong form.
fn lower_of(lead: u8) -> u8
    ensures { result ≡ lower_of lead }
{
    match lead {
        0xe0 => 0xa0,
        0xf0 => 0x90,
        _ => 0x80,
    }
}

// The highest byte that may follow a lead byte: below BFh where more would be a surrogate, or past U+10FFFF.
fn upper_of(lead: u8) -> u8
    ensures { result ≡ upper_of lead }
{
    match lead {
        0xed => 0x9f,
        0xf4 => 0x8f,
        _ => 0xbf,
    }
}

// One more byte for `code`, from lower to upper. Any other byte is left to be read anew: the error ends before it.
fn one_more(text: &[u8], at: usize, code: u32, lower: u8, upper: u8) -> Char
    requires { code < 0x100000 }
    ensures { result ≡ next_from (state code 0 1 lower upper) at (drop at text.now) }
{
    if text.len() <= at {
        return Char::Error(at);
    }
    let b = text[at];
    if b < lower || upper < b {
        return Char::Error(at);
    }
    Char::Code(code * 64 + u32::from(b) % 64, at + 1)
}

// Two more bytes; the boundaries are those of the first.
fn two_more(text: &[u8], at: usize, code: u32, lower: u8, upper: u8) -> Char
    requires { code < 0x1000 }
    ensures { result ≡ next_from (state code 0 2 lower upper) at (drop at text.now) }
{
    match one_more(text, at, code, lower, upper) {
        Char::Code(c, e) => one_more(text, e, c, 0x80, 0xbf),
        ended => ended,
    }
}

// Three more bytes; the boundaries are those of the first.
fn three_more(text: &[u8], at: usize, code: u32, lower: u8, upper: u8) -> Char
    requires { code < 0x20 }
    ensures { result ≡ next_from (state code 0 3 lower upper) at (drop at text.now) }
{
    match one_more(text, at, code, lower, upper) {
        Char::Code(c, e) => two_more(text, e, c, 0x80, 0xbf),
        ended => ended,
    }
}

// The code point of three or four bytes at `at`, or the ill_formed part there.
fn next_long(text: &[u8], at: usize) -> Char
    requires { (at < length text.now) × (0xe0 ≤ get_or text.now at 0) }
    ensures { result ≡ next_at text.now at }
{
    let b = text[at];
    if b < 0xf0 {
        return two_more(text, at + 1, u32::from(b) % 16, lower_of(b), upper_of(b));
    }
    if b < 0xf5 {
        return three_more(text, at + 1, u32::from(b) % 8, lower_of(b), upper_of(b));
    }
    Char::Error(at + 1)
}

// The code point at `at`, or the ill_formed part there. ASCII is told first, since most text is ASCII; the long forms have a
// function of their own, so that this one is short enough to be compiled into its callers.
pub fn next(text: &[u8], at: usize) -> Char
    ensures { result ≡ next_at text.now at }
{
    if text.len() <= at {
        return Char::End;
    }
    let b = text[at];
    if b < 0x80 {
        return Char::Code(u32::from(b), at + 1);
    }
    if b < 0xc2 {
        return Char::Error(at + 1);
    }
    if b < 0xe0 {
        return one_more(text, at + 1, u32::from(b) % 32, 0x80, 0xbf);
    }
    next_long(text, at)
}

// Whether a byte can only follow others in a code point.
fn is_trail(b: u8) -> bool
    ensures { result ≡ trail b }
{
    0x80 <= b && b < 0xc0
}

// The place after the code point of two bytes at `at`, or `at` where it is ill_formed. This function and the three that follow say
// what `next` says, without the code point: a test of a text needs only the place.
fn after_two(text: &[u8], at: usize) -> usize
    requires { (at + 4 ≤ length text.now) × (0x80 ≤ get_or text.now at 0) × (get_or text.now at 0 < 0xe0) }
    ensures { result ≡ place_after (next_at text.now at) at }
{
    if text[at] < 0xc2 {
        return at;
    }
    if is_trail(text[at + 1]) {
        return at + 2;
    }
    at
}

// Whether a byte may be the second after a lead byte.
fn second_fits(lead: u8, b: u8) -> bool
    ensures { result ≡ (leb (lower_of lead) b && leb b (upper_of lead)) }
{
    lower_of(lead) <= b && b <= upper_of(lead)
}

// Whether both bytes can only follow others.
fn both_trail(a: u8, b: u8) -> bool
    ensures { result ≡ (trail a && trail b) }
{
    is_trail(a) && is_trail(b)
}

// Whether three bytes are a code point, where the first is the lead of one.
fn three_fit(a: u8, b: u8, c: u8) -> bool
    ensures { result ≡ ((leb (lower_of a) b && leb b (upper_of a)) && trail c) }
{
    second_fits(a, b) && is_trail(c)
}

// The same of the four bytes at `at`.
fn four_fit(text: &[u8], at: usize) -> bool
    requires { at + 4 ≤ length text.now }
    ensures { result ≡ four_fit text.now at }
{
    second_fits(text[at], text[at + 1]) && both_trail(text[at + 2], text[at + 3])
}

// The place after the code point of three bytes at `at`, or `at` where it is ill_formed.
fn after_three(text: &[u8], at: usize) -> usize
    requires { (at + 4 ≤ length text.now) × (0xe0 ≤ get_or text.now at 0) × (get_or text.now at 0 < 0xf0) }
    ensures { result ≡ place_after (next_at text.now at) at }
{
    if three_fit(text[at], text[at + 1], text[at + 2]) {
        return at + 3;
    }
    at
}

// The same of four.
fn after_four(text: &[u8], at: usize) -> usize
    requires { (at + 4 ≤ length text.now) × (0xf0 ≤ get_or text.now at 0) × (get_or text.now at 0 < 0xf5) }
    ensures { result ≡ place_after (next_at text.now at) at }
{
    if four_fit(text, at) {
        return at + 4;
    }
    at
}

// The same where fewer than four bytes are left.
fn after_last(text: &[u8], at: usize) -> usize
    ensures { result ≡ place_after (next_at text.now at) at }
{
    match next(text, at) {
        Char::Code(_, e) => e,
        _ => at,
    }
}

// The place after the code point at `at`, or `at` where it is ill_formed.
fn after_code(text: &[u8], at: usize) -> usize
    requires { (at < length text.now) × (0x80 ≤ get_or text.now at 0) }
    ensures { result ≡ place_after (next_at text.now at) at }
{
    if text.len() - at < 4 {
        return after_last(text, at);
    }
    let b = text[at];
    if b < 0xe0 {
        return after_two(text, at);
    }
    if b < 0xf0 {
        return after_three(text, at);
    }
    if b < 0xf5 {
        return after_four(text, at);
    }
    at
}

// Whether a block of N bytes begins at a place that is ASCII throughout.
fn ascii_block<const N: usize>(text: &[u8], at: usize) -> bool
    requires { at < length text.now }
    ensures { result ≡ true → (at + N ≤ length text.now) × (is_ascii (take N (drop at text.now)) ≡ true) }
{
    text.len() - at >= N && is_ascii(&text[at..at + N])
}

// How many bytes of ASCII begin at a place, told by a block: 64, 16 or none.
fn ascii_bytes(text: &[u8], at: usize) -> usize
    requires { at < length text.now }
    ensures { AsciiHere text.now at result }
{
    if ascii_block::<64>(text, at) {
        return 64;
    }
    if ascii_block::<16>(text, at) {
        return 16;
    }
    0
}

// The place before `at` where a byte stands there that can only follow others, else `at` itself.
fn before_trail(text: &[u8], at: usize) -> usize
    requires { (0 < at) × (at < length text.now) }
    ensures { (result ≤ at) × (at ≤ result + 1) }
{
    if is_trail(text[at]) {
        return at - 1;
    }
    at
}

// The end of a text, or where its last code point begins, if the end cuts it off and it is not at `at`.
fn text_cut(text: &[u8], at: usize) -> usize
    requires { at < length text.now }
    ensures { (at < result) × (result ≤ length text.now) }
{
    let len = text.len();
    if len - at < 4 {
        return len;
    }
    if text[len - 1] >= 0xc0 {
        return len - 1;
    }
    if text[len - 2] >= 0xe0 {
        return len - 2;
    }
    if text[len - 3] >= 0xf0 {
        return len - 3;
    }
    len
}

// The end of the block of at most 64 bytes at a place that is tried at once, before a code point, so that the automaton can end there.
fn block_cut(text: &[u8], at: usize) -> usize
    requires { at < length text.now }
    ensures { (at < result) × (result ≤ length text.now) }
{
    if text.len() - at <= 64 {
        return text_cut(text, at);
    }
    let last = before_trail(text, at + 64);
    let middle = before_trail(text, last);
    before_trail(text, middle)
}

// The place after the code point at `at`, ASCII or not, or `at` where it is ill_formed.
fn after_any(text: &[u8], at: usize) -> usize
    requires { at < length text.now }
    ensures { result ≡ place_after (next_at text.now at) at }
{
    if text[at] < 0x80 {
        return at + 1;
    }
    after_code(text, at)
}

// Goes on from `at` code point by code point, to `bound` or to an error before it.
fn codes_end(text: &[u8], at: usize, bound: usize) -> usize
    requires bound_in_bounds { bound ≤ length text.now }
    requires passed_to { PassedTo text.now at }
    ensures passed_to_2 { PassedTo text.now result }
    ensures stop { result < bound → well_formed text.now ≡ eqb result (length text.now) }
{
    let mut i = at;
    while i < bound {
        let after = after_any(text, i);
        if after == i {
            return i;
        }
        i = after;
    }
    i
}

// A place after `at` in `len` bytes: `until`, or the nearest to it.
fn bound_after(at: usize, until: usize, len: usize) -> usize
    requires { at < len }
    ensures { (at < result) × (result ≤ len) }
{
    until.clamp(at + 1, len)
}

// How much of a text is UTF-8 from its start on: up to the first error. It goes by blocks, and code point by code point in a block with an error and in
// the first `careful` bytes: where an error is likely, a block is not worth the trial.
pub fn valid_carefully(text: &[u8], careful: usize) -> usize
    ensures valid_to { ValidTo text.now result }
    ensures whole { well_formed text.now ≡ eqb result (length text.now) }
{
    let mut at = 0;
    let mut until = careful;
    while at < text.len() {
        if until <= at {
            let ascii = ascii_bytes(text, at);
            if ascii > 0 {
                at += ascii;
                continue;
            }
            let end = block_cut(text, at);
            if goes_through(&text[at..end]) {
                at = end;
                continue;
            }
            until = end;
        }
        let bound = bound_after(at, until, text.len());
        let after = codes_end(text, at, bound);
        if after < bound {
            return after;
        }
        at = after;
    }
    at
}

// The same, by blocks from the start on.
pub fn valid_up_to(text: &[u8]) -> usize
    ensures valid_to { ValidTo text.now result }
    ensures whole { well_formed text.now ≡ eqb result (length text.now) }
{
    valid_carefully(text, 0)
}

// Whether the whole text is UTF-8: no overlong form, no surrogate, no cut code point.
pub fn well_formed(text: &[u8]) -> bool
    ensures { result ≡ well_formed text.now }
{
    valid_up_to(text) == text.len()
}

// Whether a part of a text that is UTF-8 is UTF-8 too. The bytes at its two ends tell, so that it costs the same however long it is.
pub fn part_well_formed(text: &[u8], a: usize, e: usize) -> bool
    requires { (well_formed text.now ≡ true) × (e ≤ length text.now) }
    ensures { result ≡ well_formed (take (e - a) (drop a text.now)) }
{
    if e <= a {
        return true;
    }
    !is_trail(text[a]) && (e == text.len() || !is_trail(text[e]))
}
