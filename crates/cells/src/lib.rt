// Cells: where the stored bytes of chunks lie.
#![tactic(auto)]

pub mod buffer;
pub mod cell;
pub mod chosen_cell;
pub mod paged_cell;
pub mod slot;
#[cfg(test)]
mod tests;
