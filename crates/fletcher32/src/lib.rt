// The fletcher32 codec.
#![tactic(auto)]

pub mod fletcher32_codec;
