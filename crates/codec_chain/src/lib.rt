// Chains of codecs, and the place where what is decoded is kept.
#![tactic(auto)]

pub mod codec_chain;
pub mod fitted_chain;
