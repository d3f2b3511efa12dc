// The journal of a batch: its numbers, its entries, read and written.
#![tactic(auto)]

pub mod entries;
pub mod numbers;
pub mod writing;
