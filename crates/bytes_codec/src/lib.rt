// The bytes codec.
#![tactic(auto)]

pub mod bytes_codec;
