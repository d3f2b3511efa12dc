// Taking a batch back with its journal: refusal 26 tested, rows restored, the call.
#![tactic(auto)]

pub mod restoring;
pub mod take_back;
pub mod testing;
