// The scalar value at a place of UTF-16LE bytes, one at a time: what the decoder measures and writes.
// `scalar_16` is for the decoder alone, which knows that its `requires` holds.
#![tactic(auto)]

ghost use Rattle.std.specs.Prelude.{◌+◌, ◌≤◌, ◌<◌, length};
ghost use Rattle.enc_utf_16_scalar.specs.Units.{UnitAt, SurrogateAt, FirstScalar};

// What an error is replaced by.
const REPLACEMENT: u32 = 0xfffd;

// A scalar value, and the place after it.
#[derive(Clone, Copy)]
pub struct Scalar {
    pub code: u32,
    pub next: usize,
}

// The code unit at a place, its low byte first.
fn unit(bytes: &[u8], at: usize) -> u32
    requires { at + 2 ≤ length bytes.now }
    ensures { UnitAt bytes.now at result }
{
    u32::from(u16::from_le_bytes([bytes[at], bytes[at + 1]]))
}

// The scalar value that a surrogate at a place begins; U+FFFD for an error.
fn surrogate(bytes: &[u8], at: usize, lead: u32) -> Scalar
    requires { SurrogateAt bytes.now at lead }
    ensures { FirstScalar bytes.now at result.code result.next }
{
    if lead > 0xdbff {
        // A trailing surrogate alone.
        return Scalar {
            code: REPLACEMENT,
            next: at + 2,
        };
    }
    if bytes.len() - at < 4 {
        // A leading surrogate at the end: one error, also where an odd byte follows it.
        return Scalar {
            code: REPLACEMENT,
            next: bytes.len(),
        };
    }
    let trail = unit(bytes, at + 2);
    if trail < 0xdc00 || trail > 0xdfff {
        return Scalar {
            code: REPLACEMENT,
            next: at + 2,
        };
    }
    let code = 0x10000 + (lead - 0xd800) * 0x400 + (trail - 0xdc00);
    Scalar { code, next: at + 4 }
}

// The scalar value at a place of UTF-16LE bytes; U+FFFD for an error. Most units are no surrogates, and are told first.
pub fn scalar_16(bytes: &[u8], at: usize) -> Scalar
    requires { at < length bytes.now }
    ensures { FirstScalar bytes.now at result.code result.next }
{
    if bytes.len() - at < 2 {
        // An odd byte at the end.
        return Scalar {
            code: REPLACEMENT,
            next: at + 1,
        };
    }
    let code = unit(bytes, at);
    // Two tests, since as one they took up to half as long again: nearly all code units are told by the first.
    if code < 0xd800 {
        return Scalar { code, next: at + 2 };
    }
    if code > 0xdfff {
        return Scalar { code, next: at + 2 };
    }
    surrogate(bytes, at, code)
}
