// Runs of apply-batch over files written here that are refused, each refusal from 0 to 8, 20 and 21, by itself and with a later
// fault behind it. Behind the name of a case stand the line that was printed and what the run left of the files.
#![tactic(auto)]

mod refusals;

use std::io;

fn main(rt: HostRuntime) -> io::Result<()> {
    refusals::space(&rt)?;
    refusals::years(&rt)?;
    refusals::lists(&rt)?;
    refusals::masters(&rt)?;
    refusals::batches(&rt)
}
