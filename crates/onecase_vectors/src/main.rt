// Vectors of the one-case machine, worked by hand from the papers. The file stdin has them, a record to a line, and the file stdout the
// same lines with the verdict and the row behind each record. src/run.rt says how a line is read.
#![tactic(auto)]

mod print;
mod record;
mod run;
mod scan;

use std::io;
use std::io::Read;

fn main(rt: HostRuntime) -> io::Result<()> {
    let mut text = Vec::new(rt.alloc());
    rt.reader().read_to_end(&mut text)?;
    run::lines(&rt, &text)
}
