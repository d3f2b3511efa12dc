// Vectors of the crate layout for keys and rows, worked by hand from the papers: a line for each, compared with the file stdout.
#![tactic(auto)]

mod key;
mod lists;
mod row;

use std::io;

fn main(rt: HostRuntime) -> io::Result<()> {
    key::vectors(&rt)?;
    row::vectors(&rt)
}
