// The line of each kind of record.
#![tactic(auto)]

ghost use Rattle.print_figures.specs.Puts.{Puts};
ghost use Rattle.print_record_line.specs.Line.{counted_line, named_line, sized_start, int_line, nat_line, real_line, text_word, text_line, number_line, line_of};

use print_figures::decimal::{put_decimal, put_signed};
use print_figures::hexadecimal::{put_hex, put_hex_text};
use print_figures::put::{put_byte, put_bytes};
use tape::record::{
    ARRAY, ARRAY_END, BOOL, ENUM, KEY, MAP, MAP_END, REAL32, REAL64, Record, SIGNED, TEXT, UNIT,
    UNSIGNED,
};
use tape::text::record_text;

// A word with its blank, and a number.
pub fn counted(p: Option<usize>, word: &[u8], n: u64, out: &mut [u8]) -> Option<usize>
    ensures { Puts (counted_line word.now n) out.old p result out.new }
{
    let a = put_bytes(p, word, out);
    let b = put_decimal(a, n, out);
    put_byte(b, b'\n', out)
}

// A word with its blank, and a name.
fn named(p: Option<usize>, word: &[u8], name: &[u8], out: &mut [u8]) -> Option<usize>
    ensures { Puts (named_line word.now name.now) out.old p result out.new }
{
    let a = put_bytes(p, word, out);
    let b = put_bytes(a, name, out);
    put_byte(b, b'\n', out)
}

// What an integer's line begins with: a word with its blank, the width in bits, a blank.
fn sized(p: Option<usize>, word: &[u8], width: u8, out: &mut [u8]) -> Option<usize>
    ensures { Puts (sized_start word.now width) out.old p result out.new }
{
    let a = put_bytes(p, word, out);
    let b = put_decimal(a, width as u64 * 8, out);
    put_byte(b, b' ', out)
}

// A signed integer: its width in bits and its value.
fn int_line(p: Option<usize>, width: u8, n: u64, out: &mut [u8]) -> Option<usize>
    ensures { Puts (int_line width n) out.old p result out.new }
{
    let a = sized(p, b"int ", width, out);
    let b = put_signed(a, n, out);
    put_byte(b, b'\n', out)
}

// An integer without a sign: its width in bits and its value.
fn nat_line(p: Option<usize>, width: u8, n: u64, out: &mut [u8]) -> Option<usize>
    ensures { Puts (nat_line width n) out.old p result out.new }
{
    let a = sized(p, b"nat ", width, out);
    let b = put_decimal(a, n, out);
    put_byte(b, b'\n', out)
}

// A real's bits, all their k hexadecimal digits.
fn real_line(p: Option<usize>, word: &[u8], k: u8, n: u64, out: &mut [u8]) -> Option<usize>
    ensures { Puts (real_line word.now k n) out.old p result out.new }
{
    let a = put_bytes(p, word, out);
    let b = put_hex(a, k, n, out);
    put_byte(b, b'\n', out)
}

// The word before a text: byte 1 of its record says whether it was ended.
fn text_word(p: Option<usize>, ended: u8, out: &mut [u8]) -> Option<usize>
    ensures { Puts (text_word ended) out.old p result out.new }
{
    if ended == 0 {
        return put_bytes(p, b"clipped", out);
    }
    put_bytes(p, b"text", out)
}

// A text's word and its bytes; the empty text has no blank after its word.
fn text_line(p: Option<usize>, ended: u8, text: &[u8], out: &mut [u8]) -> Option<usize>
    ensures { Puts (text_line ended text.now) out.old p result out.new }
{
    let a = text_word(p, ended, out);
    if text.len() == 0 {
        return put_byte(a, b'\n', out);
    }
    let b = put_byte(a, b' ', out);
    let c = put_hex_text(b, text, out);
    put_byte(c, b'\n', out)
}

// The line of a bool, an integer or a real; another kind has none.
fn number_line(p: Option<usize>, r: Record, out: &mut [u8]) -> Option<usize>
    ensures { Puts (number_line r) out.old p result out.new }
{
    let kind = r.kind;
    match kind {
        BOOL => counted(p, b"bool ", r.b, out),
        SIGNED => int_line(p, r.width, r.b, out),
        UNSIGNED => nat_line(p, r.width, r.b, out),
        REAL32 => real_line(p, b"real 4 ", 8, r.b, out),
        REAL64 => real_line(p, b"real 8 ", 16, r.b, out),
        _ => p,
    }
}

// The line of a record; a kind that no record has gives none.
pub fn line<'a>(
    p: Option<usize>,
    book: &'a [u8],
    text: &'a [u8],
    r: Record,
    out: &mut [u8],
) -> Option<usize>
    ensures { Puts (line_of book.now text.now r) out.old p result out.new }
{
    let kind = r.kind;
    match kind {
        ARRAY => counted(p, b"array ", r.a, out),
        ARRAY_END => put_bytes(p, b"end\n", out),
        MAP => counted(p, b"map ", r.a, out),
        KEY => named(p, b"key ", record_text(book, text, r), out),
        MAP_END => put_bytes(p, b"end\n", out),
        TEXT => text_line(p, r.width, record_text(book, text, r), out),
        ENUM => named(p, b"enum ", record_text(book, text, r), out),
        UNIT => put_bytes(p, b"unit\n", out),
        _ => number_line(p, r, out),
    }
}
