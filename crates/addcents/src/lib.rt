// The conversion of a master whose rows have no cents.
#![tactic(auto)]

pub mod convert;
