// Groups of numbers: what can be added to one another, and taken away again.
#![tactic(auto)]

pub mod exclusive;
pub mod group;
pub mod modular;
pub mod width;
