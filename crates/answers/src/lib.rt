// What every call answers: the refusals, and definitions and laws of an answer.
#![tactic(auto)]

pub mod refusal;
