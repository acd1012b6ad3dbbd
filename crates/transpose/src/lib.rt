// The transpose codec.
#![tactic(auto)]

mod axis_order;
mod gather;
pub mod transpose_codec;
