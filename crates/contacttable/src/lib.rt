// A table of contact records: its order and refusal 18, and the codes of one state.
#![tactic(auto)]

pub mod codes;
pub mod table;
