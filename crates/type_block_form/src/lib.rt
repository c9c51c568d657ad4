// One block of a type book: its sum (refusal 2) and the bytes that its kind allows (refusal 3). These functions are for the check of a
// whole book, which knows that a block has 512 bytes, and asks for the form of those alone that hold their sum.
#![tactic(auto)]

ghost use Rattle.std.specs.Prelude.{◌≡◌, true, ◌≤◌, ◌<◌, length};
ghost use Rattle.type_block_form.specs.Form.{sum_of, sum_right, every, is_zero, is_printable, unused_zero, names_form, flags_form, type_form, field_form, entry_form};
ghost use Rattle.type_block_form.specs.Names.{name_sum_of};

use enc_number::le::le_u32;

// ---- its sum

// The sum of the bytes of half a block. It is kept in 16 bits, which hold it, so that the compiler adds eight bytes at once.
fn sum(part: &[u8]) -> u32
    requires { length part.now ≤ 254 }
    ensures { (result ≡ sum_of part.now) × (result < 65536) }
{
    let mut total: u16 = 0;
    for byte in part {
        total += *byte as u16;
    }
    total as u32
}

// Bytes 508 to 511 hold the sum of the block's other 508 bytes.
pub fn sum_right(block: &[u8]) -> bool
    requires { length block.now ≡ 512 }
    ensures { result ≡ sum_right block.now }
{
    le_u32(&block[508..512]) == sum(&block[..254]) + sum(&block[254..508])
}

// ---- its form

// Whether all bytes of a part are 0. It looks for the highest of them, which needs no branch: most of a block is zeros.
fn all_zero(part: &[u8]) -> bool
    ensures { result ≡ every is_zero part.now }
{
    let mut highest: u8 = 0;
    for byte in part {
        highest = highest.max(*byte);
    }
    highest == 0
}

fn is_printable(byte: u8) -> bool
    ensures { result ≡ is_printable byte }
{
    matches!(byte, 32..=126)
}

// Whether every byte may stand in a name.
pub fn all_printable(part: &[u8]) -> bool
    ensures { result ≡ every is_printable part.now }
{
    part.iter().all(|byte| is_printable(*byte))
}

// The first `used` bytes of a part are free, and the others are 0.
#[tactic(auto, unfolding(crate::specs::Form::unused_zero))]
fn unused_zero(part: &[u8], used: usize) -> bool
    ensures { result ≡ unused_zero used part.now }
{
    used <= part.len() && all_zero(&part[used..])
}

// What the bytes of a name add up to, if each of them may stand in a name: they are tested and added up in one pass.
fn name_sum(name: &[u8]) -> Option<usize>
    requires { length name.now ≤ 200 }
    ensures { result ≡ name_sum_of name.now }
{
    let mut total = 0;
    for byte in name {
        if !is_printable(*byte) {
            return None;
        }
        total += *byte as usize;
    }
    Some(total)
}

// Bytes 52 to 507, which the three kinds share, of a block that holds its sum: what the head and the two names leave of the sum is 0, so
// every byte past them is. That spares a look at the zeros, which are most of a block.
fn names_form(block: &[u8]) -> bool
    requires { (length block.now ≡ 512) × (sum_right block.now ≡ true) }
    ensures { result ≡ names_form block.now }
{
    let n = block[52] as usize;
    if n > 200 {
        return false;
    }
    let Some(of_name) = name_sum(&block[54..54 + n]) else {
        return false;
    };
    let t = block[53] as usize;
    if t > 200 {
        return false;
    }
    let Some(of_type_name) = name_sum(&block[254..254 + t]) else {
        return false;
    };
    le_u32(&block[508..512]) as usize == sum(&block[..54]) as usize + of_name + of_type_name
}

// The flags of a type block: five bits, and a sixth that marks a STRING (id 30) as UTF-8.
#[tactic(auto, unfolding(crate::specs::Form::flags_form))]
fn flags_form(flags: u8, id: u32) -> bool
    ensures { result ≡ flags_form flags id }
{
    if id == 30 { flags < 64 } else { flags < 32 }
}

#[tactic(auto, unfolding(crate::specs::Form::type_form))]
pub fn type_form(block: &[u8]) -> bool
    requires { (length block.now ≡ 512) × (sum_right block.now ≡ true) }
    ensures { result ≡ type_form block.now }
{
    block[0] == 1
        && flags_form(block[1], le_u32(&block[4..8]))
        && block[2] <= 8
        && block[3] == 0
        && unused_zero(&block[20..52], block[2] as usize * 4)
        && names_form(block)
}

#[tactic(auto, unfolding(crate::specs::Form::field_form))]
pub fn field_form(block: &[u8]) -> bool
    requires { (length block.now ≡ 512) × (sum_right block.now ≡ true) }
    ensures { result ≡ field_form block.now }
{
    block[0] == 2 && all_zero(&block[1..4]) && all_zero(&block[12..52]) && names_form(block)
}

#[tactic(auto, unfolding(crate::specs::Form::entry_form))]
pub fn entry_form(block: &[u8]) -> bool
    requires { (length block.now ≡ 512) × (sum_right block.now ≡ true) }
    ensures { result ≡ entry_form block.now }
{
    block[0] == 3
        && block[1] <= 8
        && all_zero(&block[2..20])
        && unused_zero(&block[20..52], block[1] as usize)
        && block[53] == 0
        && names_form(block)
}
