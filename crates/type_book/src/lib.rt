// The type book: what its blocks say, and the look-up of a type by its name.
#![tactic(auto)]

pub mod block;
