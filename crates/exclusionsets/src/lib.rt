// The exclusion field of a record and the exclusion set of a row: words read, a set shown and written.
#![tactic(auto)]

pub mod exclusions;
