// Values that hold no further values: what a type's bytes stand for, or the refusal.
#![tactic(auto)]

mod enum_access;
pub mod leaf;
