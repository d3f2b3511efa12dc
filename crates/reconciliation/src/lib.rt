// The reconciliation file.
#![tactic(auto)]

pub mod reconcile;
