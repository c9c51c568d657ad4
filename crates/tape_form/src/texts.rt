// The texts of a tape. A text that lies in bytes that were found to be UTF-8 before costs no second pass over them, so that many
// records may name one long text. Two findings are kept, in three numbers: the buffer is UTF-8 up to known[0], and from known[1]
// up to known[2].
ghost use Rattle.std.specs.Prelude.{◌≡◌, ◌-◌, ◌≤◌, length, take, drop};
ghost use Rattle.enc_utf_8.specs.Utf8.{well_formed, Stretch};
ghost use Rattle.tape_form.specs.Known.{KnownTexts};
ghost use Rattle.tape_form.specs.Ranges.{text_in};

use enc_utf_8_decoder::{part_well_formed, valid_up_to, well_formed};

// How far past a text the buffer is looked at.
const AHEAD: usize = 4096;

// The place up to which the buffer is looked at for a text that ends at `e`: past it, so that short texts that follow each other
// are passed over in blocks.
fn ahead(len: usize, e: usize) -> usize
    requires { e ≤ len }
    ensures { (e ≤ result) × (result ≤ len) }
{
    e.saturating_add(AHEAD).min(len)
}

// The first finding grows past `e`, or up to an error before it. No byte but those at an error is looked at twice.
fn grow(text: &[u8], known: &mut [usize; 3], e: usize)
    requires { KnownTexts text.now known.old × (e ≤ length text.now) }
    ensures { KnownTexts text.now known.new }
{
    let v = known[0];
    if e <= v {
        return;
    }
    let to = ahead(text.len(), e);
    let more = valid_up_to(&text[v..to]);
    known[0] = v + more;
}

// The second finding becomes the bytes from a up to e, which are UTF-8, if they are more: the longest text is the dearest.
fn keep(text: &[u8], known: &mut [usize; 3], a: usize, e: usize)
    requires { KnownTexts text.now known.old × Stretch text.now a e }
    ensures { KnownTexts text.now known.new }
{
    let lo = known[1];
    let hi = known[2];
    if e - a <= hi - lo {
        return;
    }
    known[1] = a;
    known[2] = e;
}

// Whether the bytes from a up to e are UTF-8, where an error of the buffer lies before e: by the second finding, or by a pass of their own.
fn is_later(text: &[u8], known: &mut [usize; 3], a: usize, e: usize) -> bool
    requires { KnownTexts text.now known.old × (a ≤ e) × (e ≤ length text.now) }
    ensures value { result ≡ well_formed (take (e - a) (drop a text.now)) }
    ensures known_texts { KnownTexts text.now known.new }
{
    let lo = known[1];
    let hi = known[2];
    if lo <= a && e <= hi {
        return part_well_formed(&text[lo..hi], a - lo, e - lo);
    }
    if well_formed(&text[a..e]) {
        keep(text, known, a, e);
        return true;
    }
    false
}

// Whether some bytes lie in the text buffer and are UTF-8.
pub(crate) fn is_text(text: &[u8], known: &mut [usize; 3], from: u64, len: u64) -> bool
    requires { KnownTexts text.now known.old }
    ensures value { result ≡ text_in text.now from len }
    ensures known_texts { KnownTexts text.now known.new }
{
    let end = text.len() as u64;
    if end < from {
        return false;
    }
    if end - from < len {
        return false;
    }
    let a = from as usize;
    let e = (from + len) as usize;
    grow(text, known, e);
    let v = known[0];
    if e <= v {
        return part_well_formed(&text[..v], a, e);
    }
    is_later(text, known, a, e)
}
