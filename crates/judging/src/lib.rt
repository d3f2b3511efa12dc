// A record's errors and warnings, and the set of all that hold.
#![tactic(auto)]

pub mod errors;
pub mod front;
pub mod judge;
pub mod parts;
pub mod setting;
pub mod warnings;
