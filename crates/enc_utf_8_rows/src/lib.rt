// Whether bytes are UTF-8, told by an automaton without a branch for each byte.
#![tactic(auto)]

mod row;

ghost use Rattle.std.specs.Prelude.{◌≡◌, true};
ghost use Rattle.enc_utf_8.specs.Utf8.{well_formed};

use row::row;

// Whether the automaton goes through some bytes and ends between two code points: they are UTF-8 then. A state is the number of bits that the next
// row is shifted by; the bits above its six lowest are those of other states, and count for nothing.
pub fn goes_through(part: &[u8]) -> bool
    ensures { result ≡ true → well_formed part.now ≡ true }
{
    let mut state: u64 = 0;
    for byte in part {
        state = row(*byte) >> (state % 64);
    }
    state % 64 == 0
}
