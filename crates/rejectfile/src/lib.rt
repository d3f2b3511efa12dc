// What is written of the verdicts: the verdict list, the reject file and the counts.
#![tactic(auto)]

pub mod counts;
pub mod rejects;
pub mod verdicts;
