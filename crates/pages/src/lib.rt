// Case pages: the live rows of a master, printed.
#![tactic(auto)]

pub mod forms;
pub mod printing;
