// What the tests of apply-batch share: EBCDIC columns from ASCII text, files by name, and bytes shown.
#![tactic(auto)]

pub mod columns;
pub mod files;
pub mod show;
