// Vectors of the crate layout for single fields and for sets of codes, worked by hand from the papers: a line for each, compared with the
// file stdout. Keys and rows have a program of their own.
#![tactic(auto)]

mod calendar;
mod characters;
mod codes;
mod ebcdic;
mod exclusions;
mod fields;
mod lists;
mod locals;
mod name;
mod process_year;
mod ssn;
mod states;
mod zip;

use std::io;

fn main(rt: HostRuntime) -> io::Result<()> {
    ebcdic::vectors(&rt)?;
    characters::vectors(&rt)?;
    fields::vectors(&rt)?;
    states::vectors(&rt)?;
    ssn::vectors(&rt)?;
    name::vectors(&rt)?;
    zip::vectors(&rt)?;
    calendar::vectors(&rt)?;
    process_year::vectors(&rt)?;
    exclusions::vectors(&rt)?;
    locals::vectors(&rt)?;
    codes::vectors(&rt)
}
