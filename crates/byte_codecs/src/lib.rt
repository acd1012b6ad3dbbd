// Byte codecs chosen at run time.
#![tactic(auto)]

pub mod byte_codec;
