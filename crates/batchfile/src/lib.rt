// The control record of a batch, the totals that it states, and the refusals of a batch.
#![tactic(auto)]

pub mod refusals;
pub mod stated;
pub mod totals;
