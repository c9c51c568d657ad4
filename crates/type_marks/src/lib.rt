// A set of bits in a lent slice of numbers, and marks for the names that were met: three bits for each name's hash, so that a name whose
// hash is not marked was not met. A mark too many only costs a comparison.
#![tactic(auto)]

ghost use Rattle.std.specs.Prelude.{◌≡◌, ◌/◌, ◌≤◌, ◌<◌, length};
ghost use Rattle.type_marks.specs.Marks.{mixed_of, folded_of, joined_of, hash_of, slot_of, SlotIs, bit_of, BitSet, is_marked, Marked};

use enc_number::le::le_value;

// ---- the hash of a name

// Both halves of a number, each by a product of its own, in one number.
#[tactic(auto, unfolding(crate::specs::Marks::mixed_of))]
fn mixed(x: u64) -> u64
    ensures { result ≡ mixed_of x }
{
    ((x % 0x1_0000_0000) * 0x9e37_79b1) ^ ((x / 0x1_0000_0000) * 0x85eb_ca77)
}

// A number of 64 bits as one of 32.
#[tactic(auto, unfolding(crate::specs::Marks::folded_of))]
fn folded(x: u64) -> u32
    ensures { result ≡ folded_of x }
{
    ((x ^ (x / 0x1_0000_0000)) % 0x1_0000_0000) as u32
}

// A hash with the first eight bytes of a part, or with those that there are.
#[tactic(auto, unfolding(crate::specs::Marks::joined_of))]
fn joined(h: u64, part: &[u8]) -> u64
    ensures { result ≡ joined_of h part.now }
{
    mixed(h ^ le_value(part))
}

// The hash of a name, by eight bytes at a time; the last eight may overlap those before. A part has eight bytes and no more, so that it is one
// load.
pub fn hash(name: &[u8]) -> u32
    ensures { result ≡ hash_of name.now }
{
    let n = name.len();
    if n < 8 {
        return folded(joined(n as u64, name));
    }
    let k = n / 8;
    let mut h = n as u64;
    for i in 0..k {
        let at = 8 * i;
        h = joined(h, &name[at..at + 8]);
    }
    folded(joined(h, &name[n - 8..n]))
}

// ---- bits

// Bit `slot`, which is not set past the end.
#[tactic(auto, unfolding(crate::specs::Marks::bit_of))]
pub fn bit(marks: &[u32], slot: u32) -> bool
    ensures { result ≡ bit_of marks.now slot }
{
    let i = (slot / 32) as usize;
    i < marks.len() && (marks[i] >> (slot % 32)) % 2 == 1
}

pub fn set_bit(marks: &mut [u32], slot: u32)
    requires { slot / 32 < length marks.old }
    ensures { BitSet marks.old slot marks.new }
{
    let i = (slot / 32) as usize;
    marks[i] |= 1 << (slot % 32);
}

// ---- three bits for a hash

// The slot of 20 bits of a hash among the bits of n numbers, in the proportion of n to 32,768.
fn slot_in(n: usize, part: u32) -> u32
    requires { (part < 1048576) × (0 < n) × (n ≤ 32768) }
    ensures { SlotIs n part result }
{
    (part as u64 * n as u64 / 32768) as u32
}

fn part_bit(marks: &[u32], part: u32) -> bool
    requires { (part < 1048576) × (0 < length marks.now) × (length marks.now ≤ 32768) }
    ensures { result ≡ bit_of marks.now (slot_of (length marks.now) part) }
{
    bit(marks, slot_in(marks.len(), part))
}

fn set_part(marks: &mut [u32], part: u32)
    requires { (part < 1048576) × (0 < length marks.old) × (length marks.old ≤ 32768) }
    ensures { BitSet marks.old (slot_of (length marks.old) part) marks.new }
{
    let slot = slot_in(marks.len(), part);
    set_bit(marks, slot);
}

// A hash has three slots, by its upper, its middle and its lower 20 bits: names that differ rarely find all three taken.
#[tactic(auto, unfolding(crate::specs::Marks::is_marked))]
pub fn is_marked(marks: &[u32], hash: u32) -> bool
    requires { (0 < length marks.now) × (length marks.now ≤ 32768) }
    ensures { result ≡ is_marked marks.now hash }
{
    part_bit(marks, hash / 4096)
        && part_bit(marks, hash / 64 % 1048576)
        && part_bit(marks, hash % 1048576)
}

pub fn mark(marks: &mut [u32], hash: u32)
    requires { (0 < length marks.old) × (length marks.old ≤ 32768) }
    ensures { Marked marks.old hash marks.new }
{
    set_part(marks, hash / 4096);
    set_part(marks, hash / 64 % 1048576);
    set_part(marks, hash % 1048576);
}
