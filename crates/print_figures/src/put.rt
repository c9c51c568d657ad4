// Bytes put one after the other. Each function takes the place that the one before it answered, so that what does not fit
// is handed on and several follow each other without a test.
ghost use Rattle.std.specs.Prelude.{[], ◌∷◌};
ghost use Rattle.print_figures.specs.Puts.{Puts, ClearedEnd};

use enc_zeros::clear_bytes;

// One byte.
pub fn put_byte(p: Option<usize>, byte: u8, out: &mut [u8]) -> Option<usize>
    ensures { Puts (byte ∷ []) out.old p result out.new }
{
    match p {
        Some(at) => {
            if out.len() <= at {
                return None;
            }
            out[at] = byte;
            Some(at + 1)
        }
        None => None,
    }
}

// Some bytes as they are.
pub fn put_bytes(p: Option<usize>, bytes: &[u8], out: &mut [u8]) -> Option<usize>
    ensures { Puts bytes.now out.old p result out.new }
{
    let mut next = p;
    for &byte in bytes {
        next = put_byte(next, byte, out);
    }
    next
}

// The answer after the last byte: where not all fit, the buffer is all zeros.
pub fn finish(p: Option<usize>, out: &mut [u8]) -> Option<usize>
    ensures { ClearedEnd p out.old result out.new }
{
    match p {
        Some(n) => Some(n),
        None => {
            clear_bytes(out);
            None
        }
    }
}
