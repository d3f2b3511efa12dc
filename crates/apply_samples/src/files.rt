// Files by name.
use std::io::{ErrorKind, Read};
use std::rt::Files;
use std::{fs, io};
use text::fields;

// Makes a file of some bytes, in the place of the one that was there.
pub fn save(rt: &impl Files, path: &str, bytes: &[u8]) -> io::Result<()> {
    fs::write(rt, path, bytes)
}

// Whether a file can be opened.
pub fn is_there(rt: &impl Files, path: &str) -> bool {
    fs::open(rt, path).is_ok()
}

// What a file holds; nothing where a folder stands in its place.
fn contents<R: Files + Alloc>(rt: &R, mut file: R::File) -> io::Result<Vec<u8, R::A>> {
    let mut bytes = Vec::new(rt.alloc());
    match file.read_to_end(&mut bytes) {
        Err(e) if e.kind() != ErrorKind::IsADirectory => Err(e),
        _ => Ok(bytes),
    }
}

// Shows a file: none, as it was, or its number of bytes.
pub fn show(rt: &(impl Files + Alloc + Print), path: &str, before: &[u8]) -> io::Result<()> {
    print!(rt; "  {path}")?;
    let Ok(file) = fs::open(rt, path) else {
        return println!(rt; " none");
    };
    let bytes = contents(rt, file)?;
    if fields::same(&bytes, before) {
        return println!(rt; " as it was");
    }
    println!(rt; " {} bytes", bytes.len())
}
