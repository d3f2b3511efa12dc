// The details of one key worked through the machine, and the verdicts of all details put back in batch order.
#![tactic(auto)]

pub mod ahead;
pub mod batch_order;
pub mod key_work;
pub mod packed;
pub mod worked;
