// A contact file read into a table: each key's last good record is noted under the key's number, then the table is merged from its end.
#![tactic(auto)]

pub mod key_numbers;
pub mod marks;
pub mod merging;
pub mod noting;
pub mod update;
