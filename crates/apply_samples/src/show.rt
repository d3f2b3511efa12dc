// Bytes shown on standard output.
use std::rt::Files;
use std::{fs, io};
use vector_text::ebcdic::to_ascii;
use vector_text::print::text;

fn byte(rt: &impl Print, b: u8) -> io::Result<()> {
    print!(rt; "{b:02x} ")
}

fn character(rt: &impl Print, b: u8) -> io::Result<()> {
    text(rt, &[to_ascii(b, b'.')])
}

// Bytes in hexadecimal, a space behind each.
fn hexadecimal(rt: &impl Print, s: &[u8]) -> io::Result<()> {
    for b in s {
        byte(rt, *b)?;
    }
    Ok(())
}

// Bytes as characters.
pub fn characters(rt: &impl Print, s: &[u8]) -> io::Result<()> {
    for b in s {
        character(rt, *b)?;
    }
    Ok(())
}

// A line: the first column's number, the bytes, the characters.
fn line(rt: &impl Print, column: usize, s: &[u8]) -> io::Result<()> {
    print!(rt; "{column}: ")?;
    hexadecimal(rt, s)?;
    text(rt, b"[")?;
    characters(rt, s)?;
    text(rt, b"]\n")
}

// A row or a record, twenty columns in a line.
fn block(rt: &impl Print, s: &[u8]) -> io::Result<()> {
    for (i, columns) in s.chunks(20).enumerate() {
        line(rt, i * 20 + 1, columns)?;
    }
    Ok(())
}

// Rows or records of a width, one behind the other.
pub fn blocks(rt: &impl Print, s: &[u8], width: usize) -> io::Result<()> {
    if width == 0 {
        return Ok(());
    }
    for columns in s.chunks(width) {
        block(rt, columns)?;
    }
    Ok(())
}

// A file's name and its rows or records of a width.
pub fn file(rt: &(impl Files + Alloc + Print), path: &str, width: usize) -> io::Result<()> {
    let bytes = fs::read(rt, path)?;
    println!(rt; "{path}")?;
    blocks(rt, &bytes, width)
}
