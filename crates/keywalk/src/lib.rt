// The keys of a batch beside the rows of a master: new rows counted.
#![tactic(auto)]

pub mod counting;
