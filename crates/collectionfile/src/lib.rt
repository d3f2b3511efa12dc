// The weekly collection file: its lines, their amounts in cents, its last record, and the refusals of a file.
#![tactic(auto)]

pub mod amount;
pub mod cents;
pub mod chart_04;
pub mod chart_05;
pub mod file;
pub mod line;
