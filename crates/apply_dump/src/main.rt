// Applies the batch of the paper's example, then shows the files that the run left.
#![tactic(auto)]

use apply_samples::show;
use std::io;

fn main(rt: HostRuntime) -> io::Result<()> {
    apply_files::run(&rt);
    show::file(&rt, "master.bin", 200)?;
    show::file(&rt, "rejects.bin", 245)
}
