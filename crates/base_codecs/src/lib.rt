// The codecs of no single and of one.
#![tactic(auto)]

pub mod chosen;
pub mod empty;
pub mod single;
