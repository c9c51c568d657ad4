// Little-endian byte order, for any width up to eight bytes.
ghost use Rattle.std.specs.Prelude.{◌≡◌, ◌<◌, min, length, take};
ghost use Rattle.enc_number.specs.Le.{le_value, le_stored};

// The number in fewer than four bytes, the lowest first.
fn le_short(slice: &[u8]) -> u32
    requires { length slice.now < 4 }
    ensures { result ≡ le_value slice.now }
{
    let mut value: u32 = 0;
    for i in (0..slice.len()).rev() {
        value = u32::from(slice[i]) + 256 * value;
    }
    value
}

// The number in the first four bytes, the lowest first; in all of them where there are fewer.
pub fn le_u32(slice: &[u8]) -> u32
    ensures { result ≡ le_value (take 4 slice.now) }
{
    if slice.len() < 4 {
        return le_short(slice);
    }
    // One load of four bytes.
    u32::from_le_bytes([slice[0], slice[1], slice[2], slice[3]])
}

// The number in the first eight bytes, the lowest first; in all of them where there are fewer.
pub fn le_value(slice: &[u8]) -> u64
    ensures { result ≡ le_value (take 8 slice.now) }
{
    let low = u64::from(le_u32(slice));
    if slice.len() < 5 {
        return low;
    }
    low + 0x1_0000_0000 * u64::from(le_u32(&slice[4..]))
}

// Stores the lowest bytes of the value, as many as there is room for and at most eight. What lies past the eighth byte
// stays as it was.
pub fn le_store(value: u64, out: &mut [u8])
    ensures { out.new ≡ le_stored (min 8 (length out.old)) value out.old }
{
    let width = out.len().min(8);
    let mut rest = value;
    // A copy out of `to_le_bytes` was tried: it is a call for so few bytes, and took twice as long.
    for byte in out[..width].iter_mut() {
        *byte = (rest % 256) as u8;
        rest /= 256;
    }
}
