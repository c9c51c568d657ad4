// The reader: a memory by its type, as records on a tape and bytes of text.
#![tactic(auto)]

mod array_access;
pub mod deserializer;
mod map_access;
mod reading;
