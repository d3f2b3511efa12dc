// Applying a batch with a journal of what it changes.
#![tactic(auto)]

pub mod apply;
