// Posting the weekly collection file to a master, to the cent.
#![tactic(auto)]

pub mod balance;
pub mod hints;
pub mod money;
pub mod post;
pub mod turn;
