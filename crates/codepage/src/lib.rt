// Files turned from ASCII into EBCDIC and back, by code page 037.
#![tactic(auto)]

pub mod accepted;
pub mod conversion;
pub mod tables;
