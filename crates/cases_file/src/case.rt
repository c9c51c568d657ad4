// The case that stands first in the rest of a page: its fields (operation, length of the lent buffer, length of the input), its
// input, the length of what is recorded, and what is recorded.
ghost use Rattle.std.specs.Prelude.{◌≡◌, ◌<◌, ◌+◌, take, drop};
ghost use Rattle.cases_file.specs.Case.{u16_at, input_end};

use crate::input::{first, from, u16_at};

// The length of a case's fields before its input.
pub const HEAD: usize = 5;

// The case up to what is recorded.
pub fn case_of(rest: &[u8]) -> &[u8]
    ensures { result.now ≡ take (input_end rest.now) rest.now }
{
    first(rest, HEAD + u16_at(rest, 3))
}

// What is recorded.
pub fn recorded_of(rest: &[u8]) -> &[u8]
    ensures { result.now ≡ take
        (u16_at (drop (input_end rest.now) rest.now) 0)
        (drop 2 (drop (input_end rest.now) rest.now)) }
{
    let tail = from(rest, HEAD + u16_at(rest, 3));
    first(from(tail, 2), u16_at(tail, 0))
}

// The length of the case, with what is recorded.
pub fn length_of(rest: &[u8]) -> usize
    ensures { (result ≡ input_end rest.now + 2 + u16_at rest.now (input_end rest.now)) × (0 < result) × (result < 200000) }
{
    let n = HEAD + u16_at(rest, 3);
    n + 2 + u16_at(rest, n)
}
