// ASCII in UTF-16LE: most text is ASCII, and blocks of 32 code units of it are told and copied at once.
// These functions are for the decoder alone, which knows that their `requires` hold.
#![tactic(auto)]

ghost use Rattle.std.specs.Prelude.{◌≡◌, true, ◌+◌, ◌<◌, ◌≤◌, length, Some};
ghost use Rattle.enc_utf_8.specs.Buffer.{Wrote};
ghost use Rattle.enc_utf_16_ascii.specs.Ascii16.{AsciiUnits, lows};

// Whether 32 code units are ASCII: it adds up what is above 7Fh in them, which needs no branch.
fn ascii_units(bytes: &[u8], at: usize) -> bool
    requires { at + 64 ≤ length bytes.now }
    ensures { (result ≡ true → AsciiUnits bytes.now at 32) × (AsciiUnits bytes.now at 32 → result ≡ true) }
{
    let mut above: u16 = 0;
    for i in 0..32 {
        above += u16::from(bytes[at + 2 * i]) / 128 + u16::from(bytes[at + 2 * i + 1]);
    }
    above == 0
}

// Whether a whole block begins at a place, and is ASCII throughout.
pub fn ascii_block(bytes: &[u8], at: usize) -> bool
    requires { at < length bytes.now }
    ensures { (result ≡ true → AsciiUnits bytes.now at 32) × (AsciiUnits bytes.now at 32 → result ≡ true) }
{
    bytes.len() - at >= 64 && ascii_units(bytes, at)
}

// Writes the low bytes of 32 code units from `to` on, which is all that ASCII needs, and gives the place after them.
pub fn copy_units(bytes: &[u8], at: usize, out: &mut [u8], to: usize) -> usize
    requires at_in_bounds { at + 64 ≤ length bytes.now }
    requires to_in_bounds { to + 32 ≤ length out.old }
    ensures { Wrote (lows bytes.now at 32) out.old to (Some result) out.new }
{
    for i in 0..32 {
        out[to + i] = bytes[at + 2 * i];
    }
    to + 32
}
