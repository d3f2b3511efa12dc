// What the lines on standard output are made of.
use std::io;

pub fn text(rt: &impl Print, s: &[u8]) -> io::Result<()> {
    rt.write_all(s)
}

pub fn number(rt: &impl Print, n: u64) -> io::Result<()> {
    print!(rt; "{n}")
}

pub fn end(rt: &impl Print) -> io::Result<()> {
    println!(rt)
}

// A byte as two hexadecimal digits.
pub fn byte(rt: &impl Print, b: u8) -> io::Result<()> {
    print!(rt; "{b:02x}")
}

// Bytes in hexadecimal.
pub fn hex(rt: &impl Print, s: &[u8]) -> io::Result<()> {
    for b in s {
        byte(rt, *b)?;
    }
    Ok(())
}

// A line's start: what is tried, and on which text.
pub fn subject(rt: &impl Print, name: &[u8], vector: &[u8]) -> io::Result<()> {
    text(rt, name)?;
    text(rt, b" [")?;
    text(rt, vector)?;
    text(rt, b"] ")
}

// A line's end.
pub fn answer(rt: &impl Print, holds: bool) -> io::Result<()> {
    if holds {
        text(rt, b"yes\n")
    } else {
        text(rt, b"no\n")
    }
}
