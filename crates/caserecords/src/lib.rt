// The records that lead to a wanted case.
#![tactic(auto)]

pub mod correction;
pub mod differences;
pub mod records_to;
