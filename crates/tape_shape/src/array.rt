// The shape of an array: its dimensions, the bytes of one index, the bytes of the whole.
ghost use Rattle.std.specs.Prelude.{◌≡◌, ◌*◌, min, eqb, length};
ghost use Rattle.tape_shape.specs.Array.{is_last, array_bytes, StrideIs};

// No length reaches this, so a product that does needs not be known.
const TOP: u64 = 0x8000_0000_0000_0000;

// The product, or TOP where it is more.
fn times(p: u64, b: u32) -> u64
    ensures { result ≡ min (p * b) 0x8000_0000_0000_0000 }
{
    p.saturating_mul(u64::from(b)).min(TOP)
}

// Whether the element's size times all counts is the number of bytes, exactly.
pub fn product_is(book: &[u8], t: u32, e: u32, bytes: &[u8]) -> bool
    ensures { result ≡ eqb (array_bytes book.now t e) (length bytes.now) }
{
    let dims = type_book::block::dimensions(book, t);
    let mut p = times(
        u64::from(type_book::block::count(book, t, 0)),
        type_book::block::size(book, e),
    );
    for d in 1..dims {
        p = times(p, type_book::block::count(book, t, d));
    }
    p == bytes.len() as u64
}

// Whether dimension d of array t is its last.
pub fn is_last(book: &[u8], d: u8, t: u32) -> bool
    ensures { result ≡ is_last book.now d t }
{
    u32::from(type_book::block::dimensions(book, t)) <= u32::from(d) + 1
}

// The bytes of one of n equal parts of `len`.
pub fn stride_of(n: usize, len: usize) -> usize
    ensures { StrideIs n len result }
{
    if n == 0 {
        return 0;
    }
    len / n
}
