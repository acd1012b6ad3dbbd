// The difference codec.
#![tactic(auto)]

pub mod difference_codec;
mod differences;
mod elements;
