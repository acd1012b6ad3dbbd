// The shuffle codec.
#![tactic(auto)]

pub mod shuffle_codec;
