// Open chunks.
#![tactic(auto)]

pub mod byte_range;
pub mod cache;
pub mod cached;
pub mod call;
mod in_place;
pub mod open_chunk;
pub mod opening;
pub mod reading;
pub mod replay;
pub mod writing;
