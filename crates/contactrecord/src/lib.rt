// A contact record by Chart A-3: its columns, and when it is faulty.
#![tactic(auto)]

pub mod chart_a3;
pub mod contact;
pub mod wording;
