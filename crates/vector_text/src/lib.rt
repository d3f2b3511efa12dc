// Text for the programs that try the crates: ASCII put into EBCDIC and back, lists of texts, and what is
// shown on standard output.
#![tactic(auto)]

pub mod ebcdic;
pub mod lists;
pub mod print;
