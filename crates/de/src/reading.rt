// What the functions of the reader hand down beside a type: where a value of it stands.
use de_leaf_output::Typed;

// A value of a type, the pointer width, and the levels left.
#[derive(Clone, Copy)]
pub struct Reading {
    pub typed: Typed,
    pub width: u8,
    pub left: usize,
}

// A field's block, and its entry of a plan.
#[derive(Clone, Copy)]
pub struct Member {
    pub f: u32,
    pub entry: u64,
    pub width: u8,
    pub left: usize,
}

// Dimension d of array t, the block that its record declares, and the type of the array's elements.
#[derive(Clone, Copy)]
pub struct Place {
    pub named: u32,
    pub d: u8,
    pub t: u32,
    pub element: Typed,
    pub width: u8,
    pub left: usize,
}

// What a field is in the bytes of its struct: its type, and the bytes from the first number up to the second; or the refusal, document
// 01's number and the block that 7 carries (else 0).
#[derive(Clone, Copy)]
pub enum Part {
    Value(Typed, usize, usize),
    Stop(u8, u32),
}
