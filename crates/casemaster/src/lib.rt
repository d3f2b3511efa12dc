// The rows of a master: a row and its soundness, rows in order, the search for a key, rows moved, the refusals 3 and 4.
#![tactic(auto)]

pub mod master;
pub mod refusals;
pub mod row;
pub mod search;
