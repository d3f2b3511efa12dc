// Whole files by name. No contract can say what is read or written.
use std::fs::OpenFile;
use std::io::{Read, Write};
use std::rt::Files;
use std::{fs, io};

// Reads to the end of the file or of buf, and answers how many bytes. A read that fails is not taken for the end of the file.
fn read_all(file: impl Read + Drop, buf: &mut [u8]) -> io::Result<u64> {
    let space = buf.len() as u64;
    let mut rest = buf;
    io::copy(&mut file.take(space), &mut rest)
}

// Reads a file into buf, and answers how many bytes; none where it is missing or can't be read. A buffer with a byte more than there is space for shows that a file is longer.
pub fn read(rt: &impl Files, path: &str, buf: &mut [u8]) -> Option<usize> {
    let Ok(file) = fs::open(rt, path) else {
        return None;
    };
    match read_all(file, buf) {
        Ok(n) => Some(n as usize),
        Err(_) => None,
    }
}

// Says on standard error what failed, and why.
pub fn fail(rt: &impl Eprint, what: &str, why: &io::Error) {
    let _ = eprintln!(rt; "{what}: {why}");
}

// Whether a step went well; says on standard error what failed, where it did not.
fn succeeded(rt: &impl Eprint, what: &str, step: io::Result<()>) -> bool {
    match step {
        Ok(()) => true,
        Err(e) => {
            fail(rt, what, &e);
            false
        }
    }
}

// Makes a file of some bytes and has it on the disk.
fn make(rt: &impl Files, path: &str, bytes: &[u8]) -> io::Result<()> {
    let mut file = fs::create(rt, path)?;
    file.write_all(bytes)?;
    file.sync_all()
}

// Writes a file whole. What a run that was cut off left under its name goes first.
fn write(rt: &(impl Files + Eprint), path: &str, bytes: &[u8]) -> bool {
    let _ = fs::remove_file(rt, path);
    succeeded(rt, path, make(rt, path, bytes))
}

// Puts a new file in the place of an old one.
fn rename(rt: &(impl Files + Eprint), from: &str, to: &str) -> bool {
    succeeded(rt, to, fs::rename(rt, from, to))
}

// Writes both files under temporary names.
fn write_both(rt: &(impl Files + Eprint), master: &[u8], rejects: &[u8]) -> bool {
    write(rt, "rejects.bin.tmp", rejects) && write(rt, "master.bin.tmp", master)
}

// Renames both, master.bin last.
fn rename_both(rt: &(impl Files + Eprint)) -> bool {
    rename(rt, "rejects.bin.tmp", "rejects.bin") && rename(rt, "master.bin.tmp", "master.bin")
}

// Has the names of the present folder on the disk.
fn sync_names(rt: &impl Files) -> io::Result<()> {
    fs::open(rt, ".")?.sync_all()
}

// Has the new names on the disk. The files are in place where that fails too; a message says so.
fn sync_folder(rt: &(impl Files + Eprint)) {
    let unsynced = "master.bin and rejects.bin are in place, but the folder isn't synced";
    succeeded(rt, unsynced, sync_names(rt));
}

// Puts the new rejects.bin and master.bin in the place of the old. Each is whole on the disk before either is renamed. Where that fails the
// temporary files go, and the answer is false.
pub fn replace(rt: &(impl Files + Eprint), master: &[u8], rejects: &[u8]) -> bool {
    if write_both(rt, master, rejects) && rename_both(rt) {
        sync_folder(rt);
        return true;
    }
    let _ = fs::remove_file(rt, "rejects.bin.tmp");
    let _ = fs::remove_file(rt, "master.bin.tmp");
    false
}
