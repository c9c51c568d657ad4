// Numbers in memory: their byte order.
#![tactic(auto)]

pub mod le;
