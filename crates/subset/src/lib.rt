// Subsets of arrays: boxes, read and written row by row.
#![tactic(auto)]

pub mod array_subset;
mod rows;
#[cfg(test)]
mod tests;
