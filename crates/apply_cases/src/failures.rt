// Files that are left over, and files that can't be written.
use apply_samples::files;
use apply_samples::files::save;
use apply_trials::tried;
use std::rt::Runtime;
use std::{fs, io};

fn left_over(rt: &impl Runtime) -> io::Result<()> {
    tried::save_right(rt)?;
    save(rt, "master.bin.tmp", b"left over")?;
    save(rt, "rejects.bin.tmp", b"left over")?;
    tried::run_right(rt, b"temporary files left over")
}

// Under the temporary name stands a folder.
fn not_written(rt: &impl Runtime, name: &[u8], path: &str) -> io::Result<()> {
    tried::save_right(rt)?;
    save(rt, "rejects.bin", b"old")?;
    fs::create_dir(rt, path)?;
    tried::run_right(rt, name)?;
    files::show(rt, "rejects.bin", b"old")?;
    fs::remove_dir(rt, path)
}

// In the place of rejects.bin stands a folder.
fn not_renamed(rt: &impl Runtime) -> io::Result<()> {
    tried::save_right(rt)?;
    fs::create_dir(rt, "rejects.bin")?;
    tried::run_right(rt, b"rejects.bin can't be replaced")?;
    fs::remove_dir(rt, "rejects.bin")
}

pub fn all(rt: &impl Runtime) -> io::Result<()> {
    left_over(rt)?;
    not_written(rt, b"master.bin can't be written", "master.bin.tmp")?;
    not_written(rt, b"rejects.bin can't be written", "rejects.bin.tmp")?;
    not_renamed(rt)
}
