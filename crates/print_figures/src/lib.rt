// Bytes and figures put into a buffer one after the other: numbers in decimal, numbers and bytes in hexadecimal.
#![tactic(auto)]

pub mod decimal;
pub mod hexadecimal;
pub mod put;
