// The names of stages, and the words that say them.
#![tactic(auto)]

pub mod drafting;
pub mod name;
pub mod word;
