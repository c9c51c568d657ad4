// UTF-8 as the WHATWG Encoding Standard has it: its definitions and laws, and the answers that all encodings share. The decoder
// and the encoder stand in crates of their own.
#![tactic(auto)]

// Where a text in memory ends: before its zero, or with the memory.
#[derive(Clone, Copy)]
pub enum TextEnd {
    Terminated(usize),
    Unterminated(usize),
}

// The next code point or an ill_formed part, each with the place after it, or the end.
#[derive(Clone, Copy)]
pub enum Char {
    Code(u32, usize),
    Error(usize),
    End,
}
