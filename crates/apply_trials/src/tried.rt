// A case: its files, its run, and what the run left.
use crate::records;
use apply_samples::files;
use std::io::ErrorKind;
use std::rt::Runtime;
use std::{fs, io};
use vector_text::print::text;

// Writes the four files; no rejects.bin is there before the run.
pub fn save(
    rt: &impl Runtime,
    master: &[u8],
    batch: &[u8],
    locals: &[u8],
    year: &[u8],
) -> io::Result<()> {
    files::save(rt, "master.bin", master)?;
    files::save(rt, "batch.bin", batch)?;
    files::save(rt, "locals.bin", locals)?;
    files::save(rt, "year.txt", year)?;
    match fs::remove_file(rt, "rejects.bin") {
        Err(e) if e.kind() != ErrorKind::NotFound => Err(e),
        _ => Ok(()),
    }
}

// The files of a run that is carried out: the row of SMITH, and M of 100 dollars.
pub fn save_right(rt: &impl Runtime) -> io::Result<()> {
    let row = records::row(123456789);
    let batch = records::modify();
    save(rt, &row, &batch, b"", b"2007")
}

// Runs, and shows the line and the files.
pub fn run(rt: &impl Runtime, name: &[u8], master: &[u8]) -> io::Result<()> {
    text(rt, name)?;
    text(rt, b"\n")?;
    apply_files::run(rt);
    files::show(rt, "master.bin", master)?;
    files::show(rt, "rejects.bin", b"")?;
    if files::is_there(rt, "master.bin.tmp") {
        println!(rt; "  master.bin.tmp is left")?;
    }
    if files::is_there(rt, "rejects.bin.tmp") {
        println!(rt; "  rejects.bin.tmp is left")?;
    }
    Ok(())
}

// Runs over the row of SMITH.
pub fn run_right(rt: &impl Runtime, name: &[u8]) -> io::Result<()> {
    let row = records::row(123456789);
    run(rt, name, &row)
}
