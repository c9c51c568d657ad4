// Windows-1252 as the WHATWG Encoding Standard has it: a byte is one code point, by a table. The decoder and the encoder stand in
// crates of their own.
#![tactic(auto)]

mod data;
mod end;
mod index;

pub use end::string_end;
pub use index::{byte_of, code_point, code_points};
