// Error 05: line (c) of document 01's table and the names beside it. For A and B a letter is asked, for the others not.
use crate::lists;
use crate::lists::Subject;
use layout::name::{has_letter, is_name};
use std::io;
use vector_text::print;

pub fn is_right_for_a(s: &[u8]) -> bool {
    is_name(s) & has_letter(s)
}

pub fn is_right_for_m(s: &[u8]) -> bool {
    is_name(s)
}

fn raw(rt: &impl Print, s: &[u8]) -> io::Result<()> {
    print::text(rt, b"name for A ")?;
    print::hex(rt, s)?;
    print::text(rt, b" ")?;
    print::answer(rt, is_right_for_a(s))
}

fn texts(rt: &impl Print) -> io::Result<()> {
    let texts_for_a =
        b"name for A|LI  |O-NE|O NE|    |-A  |--  |-   |----|---A|A-- |A   |ABCD|IJRS";
    lists::each(rt, Subject::NameForA, texts_for_a)?;
    let texts_for_m =
        b"name for M|LI  |O-NE|O NE|    |-A  |--  |-   |----|---A|A-- |A   |ABCD|IJRS";
    lists::each(rt, Subject::NameForM, texts_for_m)?;
    let broken_for_a = b"name for A| A  |   A|A B |A  B|A  -|-  -|SMI1|1   |LI, |li  ";
    lists::each(rt, Subject::NameForA, broken_for_a)?;
    let broken_for_m = b"name for M| A  |   A|A B |A  B|A  -|-  -|SMI1|1   |LI, |li  ";
    lists::each(rt, Subject::NameForM, broken_for_m)
}

pub fn vectors(rt: &impl Print) -> io::Result<()> {
    texts(rt)?;
    raw(rt, b"\xC9\xD1\x40\x40")?;
    raw(rt, b"\xCA\x40\x40\x40")?;
    raw(rt, b"\xE1\x40\x40\x40")?;
    raw(rt, b"\xC1\x00\x40\x40")?;
    raw(rt, b"\xC1\x40\x40\x00")
}
