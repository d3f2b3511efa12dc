// The totals that the details of a batch give.
#![tactic(auto)]

pub mod detail_totals;
