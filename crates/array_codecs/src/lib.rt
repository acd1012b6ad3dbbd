// Codecs from arrays to arrays, chosen at run time.
#![tactic(auto)]

pub mod array_codec;
