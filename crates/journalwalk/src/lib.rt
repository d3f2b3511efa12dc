// The keys of a batch walked beside the rows of a master: rows moved and written, and a journal of what changes.
#![tactic(auto)]

pub mod key_entry;
pub mod walk;
