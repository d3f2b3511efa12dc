// Vectors of the calls over the contact file, worked by hand from the papers: a line for each, compared with the file stdout. The rules
// of a record have a program of their own.
#![tactic(auto)]

mod codes;
mod four;
mod update;

use std::io;

fn main(rt: HostRuntime) -> io::Result<()> {
    update::vectors(&rt)?;
    codes::vectors(&rt)
}
