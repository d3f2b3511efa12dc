// EBCDIC columns shown, and the lines `ebcdic` of the output, which show texts both ways.
use crate::lists;
use crate::lists::Subject;
use std::io;
use text::characters::{COMMA, HYPHEN};
use vector_text::ebcdic::to_ascii;
use vector_text::print;

// A column: a capital letter, a digit or a space, and a question mark for all else.
fn column(rt: &impl Print, b: u8) -> io::Result<()> {
    let sign = (b == HYPHEN) | (b == COMMA);
    let shown = if sign { b'?' } else { to_ascii(b, b'?') };
    let one = [shown];
    print::text(rt, &one)
}

fn each_column(rt: &impl Print, s: &[u8]) -> io::Result<()> {
    for b in s {
        column(rt, *b)?;
    }
    Ok(())
}

// EBCDIC columns in brackets, and the line's end.
pub fn columns(rt: &impl Print, s: &[u8]) -> io::Result<()> {
    print::text(rt, b"[")?;
    each_column(rt, s)?;
    print::text(rt, b"]\n")
}

// The bytes of a field, and what they are as text.
pub fn both_ways(rt: &impl Print, field: &[u8]) -> io::Result<()> {
    print::hex(rt, field)?;
    print::text(rt, b" ")?;
    columns(rt, field)
}

pub fn vectors(rt: &impl Print) -> io::Result<()> {
    let texts = b"ebcdic|ABCDEFGHI|JKLMNOPQR|STUVWXYZ|abcdefghi|jklmnopqr|stuvwxyz|0123456789| -,";
    lists::each(rt, Subject::Ebcdic, texts)
}
