// The layout of records: the columns of the charts, tables, the rule of each field, keys, and sets of codes.
// Each function answers a definition of specs/, in the file of its own name.
#![tactic(auto)]

pub mod chart_01;
pub mod chart_02;
pub mod chart_06;
pub mod chart_07;
pub mod chart_a1;
pub mod chart_a2;
pub mod codes;
pub mod key;
pub mod limits;
pub mod locals;
pub mod name;
pub mod process_year;
pub mod record;
pub mod records;
pub mod ssn;
pub mod states;
pub mod zip;
