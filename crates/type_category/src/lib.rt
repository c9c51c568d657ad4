// The category of a type in the book.
#![tactic(auto)]

pub mod type_category;
