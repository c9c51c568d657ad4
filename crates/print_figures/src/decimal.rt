// Numbers in decimal.
ghost use Rattle.enc_windows_1252.specs.Text.{decimal};
ghost use Rattle.print_figures.specs.Puts.{Puts};
ghost use Rattle.print_figures.specs.Figures.{signed};

use crate::put::put_byte;

// A number in decimal, the highest digit first.
pub fn put_decimal(p: Option<usize>, n: u64, out: &mut [u8]) -> Option<usize>
    ensures { Puts (decimal n) out.old p result out.new }
{
    if n < 10 {
        return put_byte(p, (0x30 + n) as u8, out);
    }
    let q = put_decimal(p, n / 10, out);
    put_byte(q, (0x30 + n % 10) as u8, out)
}

// A number of 64 bits in two's complement, in decimal with its sign.
pub fn put_signed(p: Option<usize>, n: u64, out: &mut [u8]) -> Option<usize>
    ensures { Puts (signed n) out.old p result out.new }
{
    if n < 0x8000_0000_0000_0000 {
        return put_decimal(p, n, out);
    }
    let q = put_byte(p, b'-', out);
    put_decimal(q, u64::MAX - n + 1, out)
}
