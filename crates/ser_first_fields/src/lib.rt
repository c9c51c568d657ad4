// Which fields of a type are the first of their name: found once for all fields of a type, in a set of bits, so that a field's own block
// leads to it without a search among the names. A bit says so much and no more: where none is set, the names are searched.
#![tactic(auto)]

ghost use Rattle.std.specs.Prelude.{◌≡◌, ◌+◌, ◌*◌, ◌≤◌, ◌<◌, length};
ghost use Rattle.type_book.specs.Book.{fields_of, entries_of, name_of};
ghost use Rattle.ser_named_blocks.specs.Named.{field_named};
ghost use Rattle.ser_first_fields.specs.Firsts.{found_block, Met, Firsts, Noted};

use enc_zeros::clear_numbers;
use ser_named_blocks::field_by_name;
use type_book::block;
use type_marks::{bit, hash, is_marked, mark, set_bit};

// Field i of type block t, if its name's hash is of class c of k classes, after the fields before it, whose names' hashes of that class are
// marked in `names`: it is the first of its name if its own hash is not marked.
fn note_field(book: &[u8], t: u32, k: u32, c: u32, i: u32, names: &mut [u32], firsts: &mut [u32])
    requires { (t + fields_of book.now t + entries_of book.now t < 65536) × (i < fields_of book.now t) × (i < 32 * length firsts.old) × (0 < k) × (0 < length names.old) × (length names.old ≤ 32768) × Met book.now t k c names.old i × Firsts book.now t firsts.old }
    ensures { Noted book.now t k c i names.new firsts.new }
{
    let h = hash(block::name(book, t + 1 + i));
    if h % k != c {
        return;
    }
    if is_marked(names, h) {
        return;
    }
    mark(names, h);
    set_bit(firsts, i);
}

// All fields of type block t of one class, in order. What the marks held before may cost a bit, which is then not set.
fn note_fields(book: &[u8], t: u32, k: u32, c: u32, names: &mut [u32], firsts: &mut [u32])
    requires { (t + fields_of book.now t + entries_of book.now t < 65536) × (fields_of book.now t ≤ 32 * length firsts.old) × (0 < k) × (0 < length names.old) × (length names.old ≤ 32768) × Firsts book.now t firsts.old }
    ensures { Firsts book.now t firsts.new }
{
    let n = block::fields(book, t);
    for i in 0..n {
        note_field(book, t, k, c, i, names, firsts);
    }
}

// All fields of one class, with N numbers of marks on the stack: few enough for each level of a walk to have them there.
fn note_class<const N: usize>(book: &[u8], t: u32, k: u32, c: u32, firsts: &mut [u32])
    requires { (t + fields_of book.now t + entries_of book.now t < 65536) × (fields_of book.now t ≤ 32 * length firsts.old) × (0 < k) × (0 < N) × (N ≤ 32768) × Firsts book.now t firsts.old }
    ensures { Firsts book.now t firsts.new }
{
    let mut names = [0u32; N];
    note_fields(book, t, k, c, &mut names, firsts);
}

// The fields to a class: of so many names one in some hundreds finds its marks taken.
const CLASS_FIELDS: u32 = 2048;

// All fields of a type that has many, class after class: each class is one pass over the fields, and has marks of its own for some
// two thousand names.
fn note_many(book: &[u8], t: u32, firsts: &mut [u32])
    requires { (t + fields_of book.now t + entries_of book.now t < 65536) × (fields_of book.now t ≤ 32 * length firsts.old) × Firsts book.now t firsts.old }
    ensures { Firsts book.now t firsts.new }
{
    let k = block::fields(book, t) / CLASS_FIELDS + 1;
    for c in 0..k {
        note_class::<1024>(book, t, k, c, firsts);
    }
}

// The bits of type block t's fields. Where there are fewer bits than fields none is set.
pub fn note_firsts(book: &[u8], t: u32, firsts: &mut [u32])
    requires { t + fields_of book.now t + entries_of book.now t < 65536 }
    ensures { Firsts book.now t firsts.new }
{
    clear_numbers(firsts);
    let n = block::fields(book, t) as usize;
    if firsts.len() < (n + 31) / 32 {
        return;
    }
    if n <= 256 {
        note_class::<256>(book, t, 1, 0, firsts);
        return;
    }
    note_many(book, t, firsts);
}

// The block of a field that was found, 0 where none was. A number goes from call to call in a register, and Found through memory.
fn block_of(found: Option<u32>) -> u32
    ensures { result ≡ found_block found }
{
    match found {
        Some(f) => f,
        None => 0,
    }
}

// The block of the first field of type block t that has this name; 0 where none has it.
pub fn field_block(book: &[u8], t: u32, name: &[u8]) -> u32
    requires { t + fields_of book.now t + entries_of book.now t < 65536 }
    ensures { result ≡ found_block (field_named book.now t name.now) }
{
    block_of(field_by_name(book, t, name))
}

// The same for the name of block f.
pub fn field_named_as(book: &[u8], t: u32, firsts: &[u32], f: u32) -> u32
    requires { (t + fields_of book.now t + entries_of book.now t < 65536) × Firsts book.now t firsts.now }
    ensures { result ≡ found_block (field_named book.now t (name_of book.now f)) }
{
    if t < f && bit(firsts, f - t - 1) {
        return f;
    }
    field_block(book, t, block::name(book, f))
}
