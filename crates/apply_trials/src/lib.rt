// What the programs that run apply-batch over their own files share: rows and records, and a case with its files and its run.
#![tactic(auto)]

pub mod records;
pub mod tried;
