// A batch's details in turn, and the A records among them.
#![tactic(auto)]

pub mod adds;
