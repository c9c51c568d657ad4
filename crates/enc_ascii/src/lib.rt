// ASCII, which is the same in UTF-8 and Windows-1252: told without a branch for each byte, and copied. The decoders go by blocks of at most 64 bytes, of
// which one that is ASCII throughout is only copied.
#![tactic(auto)]

ghost use Rattle.std.specs.Prelude.{◌≡◌, cond, ◌+◌, ◌<◌, ◌≤◌, ltb};
ghost use Rattle.enc_utf_8.specs.Buffer.{Wrote};
ghost use Rattle.enc_ascii.specs.Ascii.{is_ascii, block_end};

// The end of the block that starts at a place, in `len` bytes.
pub fn block_end(at: usize, len: usize) -> usize
    requires { at < len }
    ensures { (result ≡ block_end at len) × (at < result) × (result ≤ len) × (result ≤ at + 64) }
{
    at + (len - at).min(64)
}

// The higher of two bytes.
pub fn higher(a: u8, b: u8) -> u8
    ensures { result ≡ cond (ltb a b) b a }
{
    a.max(b)
}

// Whether some bytes are ASCII: none is above 7Fh. It looks for the highest of them, which needs no branch.
pub fn is_ascii(bytes: &[u8]) -> bool
    ensures { result ≡ is_ascii bytes.now }
{
    let mut highest: u8 = 0;
    for byte in bytes {
        highest = higher(highest, *byte);
    }
    highest < 0x80
}

// Copies bytes from `at` on, all of them or none, which is all that ASCII needs. No bytes fit anywhere.
pub fn copy(bytes: &[u8], out: &mut [u8], at: usize) -> Option<usize>
    ensures { Wrote bytes.now out.old at result out.new }
{
    if bytes.is_empty() {
        return Some(at);
    }
    if out.len() < at || out.len() - at < bytes.len() {
        return None;
    }
    // `copy_from_slice` calls memmove, which the archive for C would then need from outside.
    for i in 0..bytes.len() {
        out[at + i] = bytes[i];
    }
    Some(at + bytes.len())
}
