// Numbers and bytes in hexadecimal.
ghost use Rattle.std.specs.Prelude.{◌≡◌, ◌<◌};
ghost use Rattle.print_figures.specs.Puts.{Puts};
ghost use Rattle.print_figures.specs.Figures.{glyph, hex, hex_text};

use crate::put::put_byte;

// A hexadecimal digit, a capital above 9.
fn digit(d: u64) -> u8
    requires { d < 16 }
    ensures { result ≡ glyph d }
{
    if d < 10 {
        return (0x30 + d) as u8;
    }
    (0x37 + d) as u8
}

// The last k hexadecimal digits of a number, the highest first.
pub fn put_hex(p: Option<usize>, k: u8, n: u64, out: &mut [u8]) -> Option<usize>
    ensures { Puts (hex k n) out.old p result out.new }
{
    if k == 0 {
        return p;
    }
    let q = put_hex(p, k - 1, n / 16, out);
    put_byte(q, digit(n % 16), out)
}

// Two hexadecimal digits for each byte.
pub fn put_hex_text(p: Option<usize>, text: &[u8], out: &mut [u8]) -> Option<usize>
    ensures { Puts (hex_text text.now) out.old p result out.new }
{
    let mut next = p;
    for &byte in text {
        next = put_hex(next, 2, u64::from(byte), out);
    }
    next
}
