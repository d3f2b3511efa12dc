// Runs of apply-batch over files written here: the full space with refusal 9, the counts and the name clause, and files that can't be
// written. Behind the name of a case stand the line that was printed and what the run left of the files.
#![tactic(auto)]

mod failures;
mod full;
mod runs;

use std::io;

fn main(rt: HostRuntime) -> io::Result<()> {
    full::space(&rt)?;
    runs::control_records(&rt)?;
    runs::counts(&rt)?;
    runs::names(&rt)?;
    failures::all(&rt)
}
