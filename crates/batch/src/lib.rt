// Applying a batch: its totals and refusals, the work, the verdict list, the reject file and the counts.
#![tactic(auto)]

pub mod apply;
pub mod refusals;
pub mod work;
