// The UTF-8 encoder: one code point's bytes, written where they fit.
#![tactic(auto)]

ghost use Rattle.std.specs.Prelude.{◌≡◌, [], ◌∷◌, ◌<◌, length};
ghost use Rattle.enc_utf_8.specs.Buffer.{Wrote};
ghost use Rattle.enc_utf_8.specs.Utf8.{utf8_of, three, four};

// One byte. (This function and the three that follow were tried as one over `[u8; N]`, by `copy_from_slice`: that took up to half as long again.)
fn put_1(out: &mut [u8], at: usize, a: u8) -> Option<usize>
    ensures { Wrote (a ∷ []) out.old at result out.new }
{
    if out.len() <= at {
        return None;
    }
    out[at] = a;
    Some(at + 1)
}

// Two bytes, or none of them.
fn put_2(out: &mut [u8], at: usize, a: u8, b: u8) -> Option<usize>
    ensures { Wrote (a ∷ b ∷ []) out.old at result out.new }
{
    if out.len() <= at {
        return None;
    }
    if out.len() - at < 2 {
        return None;
    }
    out[at] = a;
    out[at + 1] = b;
    Some(at + 2)
}

// Three bytes, or none of them.
fn put_3(out: &mut [u8], at: usize, a: u8, b: u8, c: u8) -> Option<usize>
    ensures { Wrote (a ∷ b ∷ c ∷ []) out.old at result out.new }
{
    if out.len() <= at {
        return None;
    }
    if out.len() - at < 3 {
        return None;
    }
    out[at] = a;
    out[at + 1] = b;
    out[at + 2] = c;
    Some(at + 3)
}

// Four bytes, or none of them.
fn put_4(out: &mut [u8], at: usize, a: u8, b: u8, c: u8, d: u8) -> Option<usize>
    ensures { Wrote (a ∷ b ∷ c ∷ d ∷ []) out.old at result out.new }
{
    if out.len() <= at {
        return None;
    }
    if out.len() - at < 4 {
        return None;
    }
    out[at] = a;
    out[at + 1] = b;
    out[at + 2] = c;
    out[at + 3] = d;
    Some(at + 4)
}

// U+FFFD, in place of a number that is no scalar value.
fn put_replacement(out: &mut [u8], at: usize) -> Option<usize>
    ensures { Wrote (0xef ∷ 0xbf ∷ 0xbd ∷ []) out.old at result out.new }
{
    put_3(out, at, 0xef, 0xbf, 0xbd)
}

// A code point of three bytes, of the Basic Multilingual Plane.
fn put_basic(out: &mut [u8], at: usize, code: u32) -> Option<usize>
    requires { code < 0x10000 }
    ensures { Wrote (three code) out.old at result out.new }
{
    let a = (0xe0 + code / 4096) as u8;
    let b = (0x80 + code / 64 % 64) as u8;
    let c = (0x80 + code % 64) as u8;
    put_3(out, at, a, b, c)
}

// A code point of four bytes, of a supplementary plane.
fn put_supplementary(out: &mut [u8], at: usize, code: u32) -> Option<usize>
    requires { code < 0x110000 }
    ensures { Wrote (four code) out.old at result out.new }
{
    let a = (0xf0 + code / 262144) as u8;
    let b = (0x80 + code / 4096 % 64) as u8;
    let c = (0x80 + code / 64 % 64) as u8;
    let d = (0x80 + code % 64) as u8;
    put_4(out, at, a, b, c, d)
}

// The bytes of one code point from `at` on, all of them or none. A number that is no scalar value counts as U+FFFD.
pub fn put(out: &mut [u8], at: usize, code: u32) -> Option<usize>
    ensures { Wrote (utf8_of code) out.old at result out.new }
{
    if code < 0x80 {
        return put_1(out, at, code as u8);
    }
    if code < 0x800 {
        let a = (0xc0 + code / 64) as u8;
        let b = (0x80 + code % 64) as u8;
        return put_2(out, at, a, b);
    }
    if code < 0xd800 {
        return put_basic(out, at, code);
    }
    if code < 0xe000 {
        return put_replacement(out, at);
    }
    if code < 0x10000 {
        return put_basic(out, at, code);
    }
    if code < 0x110000 {
        return put_supplementary(out, at, code);
    }
    put_replacement(out, at)
}

// How many bytes a code point takes.
pub fn utf8_len(code: u32) -> usize
    ensures { result ≡ length (utf8_of code) }
{
    if code < 0x80 {
        return 1;
    }
    if code < 0x800 {
        return 2;
    }
    if code < 0x10000 {
        return 3;
    }
    if code < 0x110000 {
        return 4;
    }
    3
}
