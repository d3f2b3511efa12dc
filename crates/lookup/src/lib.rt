// Finding a case, and many cases together.
#![tactic(auto)]

pub mod find;
pub mod many;
