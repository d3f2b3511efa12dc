// Vectors of the rules of a contact record, worked by hand from the papers: a line for each, compared with the file stdout.
#![tactic(auto)]

mod lists;
mod record;

use std::io;

fn main(rt: HostRuntime) -> io::Result<()> {
    record::vectors(&rt)
}
