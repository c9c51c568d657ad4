// What the functions of the writer hand down beside the slices: what is to be written, and where it stands on the tape.
use tape::cursor::Cursor;
use type_category::type_category::AdsTypeCategory;

// A value of resolved type t, with the cursor at its record, the pointer width, and the levels left.
#[derive(Clone, Copy)]
pub struct Writing {
    pub t: u32,
    pub category: AdsTypeCategory,
    pub at: Cursor,
    pub width: u8,
    pub left: usize,
}

// A map of n keys for type t, with the cursor after its record.
#[derive(Clone, Copy)]
pub struct Mapping {
    pub t: u32,
    pub category: AdsTypeCategory,
    pub n: u64,
    pub at: Cursor,
    pub width: u8,
    pub left: usize,
}

// Dimension d of array t, whose elements are of resolved type e, with the cursor at its record; the category is that of e.
#[derive(Clone, Copy)]
pub struct WritePlace {
    pub d: u8,
    pub t: u32,
    pub e: u32,
    pub category: AdsTypeCategory,
    pub at: Cursor,
    pub width: u8,
    pub left: usize,
}

// The k elements that the tape has for such a dimension, with the cursor at the next of them: n is the dimension's count in the type, and
// it is known whether it is the last one.
#[derive(Clone, Copy)]
pub struct WriteRow {
    pub d: u8,
    pub t: u32,
    pub e: u32,
    pub last: bool,
    pub category: AdsTypeCategory,
    pub n: u64,
    pub k: u64,
    pub at: Cursor,
    pub width: u8,
    pub left: usize,
}
