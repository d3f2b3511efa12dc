// Dates of the Gregorian calendar.
#![tactic(auto)]

pub mod calendar;
