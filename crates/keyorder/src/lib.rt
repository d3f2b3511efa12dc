// The details of a batch in the order of their keys: judged, numbered and sorted; where each key's details end.
#![tactic(auto)]

pub mod bits;
pub mod order;
pub mod rank;
pub mod runs;
pub mod tagged;
