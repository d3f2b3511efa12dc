// The one-case machine: the verdict on a record, what it does to one row or none, and the step.
#![tactic(auto)]

pub mod case;
pub mod changes;
pub mod known;
pub mod verdict;
