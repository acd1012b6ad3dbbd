// Hexadecimal, decimal numbers, the words of a line of bytes, and lists in a word.
#![tactic(auto)]

pub mod hex;
pub mod list;
pub mod number;
pub mod words;
