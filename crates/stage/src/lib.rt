// Coding stages: what a codec means, and the laws that it keeps.
#![tactic(auto)]

pub mod array_to_array;
pub mod array_to_bytes;
pub mod capability;
pub mod codec;
pub mod room;
pub mod single;
