// The state table: the codes among all pairs of upper case letters, and texts beside them.
use crate::lists;
use crate::lists::Subject;
use layout::states::is_state;
use std::io;
use vector_text::ebcdic::from_ascii;
use vector_text::print;

fn show(rt: &impl Print, first: u8, second: u8) -> io::Result<()> {
    let code = [from_ascii(first), from_ascii(second)];
    if is_state(&code) {
        let text = [b' ', first, second];
        print::text(rt, &text)?;
    }
    Ok(())
}

fn starting_with(rt: &impl Print, first: u8) -> io::Result<()> {
    for second in b'A'..=b'Z' {
        show(rt, first, second)?;
    }
    Ok(())
}

fn all_pairs(rt: &impl Print) -> io::Result<()> {
    for first in b'A'..=b'Z' {
        starting_with(rt, first)?;
    }
    Ok(())
}

pub fn vectors(rt: &impl Print) -> io::Result<()> {
    print::text(rt, b"states")?;
    all_pairs(rt)?;
    print::end(rt)?;
    let texts = b"state|AA|AJ|AK|AL|NY|NZ|OG|OH|OI|OJ|OK|OL|WX|WY|WZ|ZZ|HO|oh|Oh|  |O |00|O|OHI||";
    lists::each(rt, Subject::State, texts)
}
