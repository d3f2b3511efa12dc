// The codes of a state: what is answered, and the twelve bytes of the output. Nines stand where nothing was written.
use crate::four;
use crate::four::least;
use answers::refusal::Refusal;
use contacttable::codes;
use std::io;
use vector_text::ebcdic::{read, write};
use vector_text::print;

fn show_answer(rt: &impl Print, answer: Result<usize, Refusal>) -> io::Result<()> {
    match answer {
        Ok(number) => print!(rt; ": codes {number}"),
        Err(refusal) => print!(rt; ": refused {}", refusal.number()),
    }
}

fn show_output(rt: &impl Print, out: &[u8; 12]) -> io::Result<()> {
    let mut text = [0u8; 12];
    read(out, &mut text);
    print::text(rt, b"; ")?;
    print::text(rt, &text)?;
    print::end(rt)
}

// The line of a state's codes among `count` records in `length` bytes, into an output of `room` bytes.
fn line(
    rt: &impl Print,
    list: &[u8],
    length: usize,
    count: usize,
    state: &[u8],
    room: usize,
) -> io::Result<()> {
    let table = four::of_list(list);
    let mut code = [0x40u8; 4];
    let n = least(write(state, &mut code), 4);
    let t = least(length, 880);
    let o = least(room, 12);
    let mut out = [0xF9u8; 12];
    let answer = codes::codes_of(&table[0..t], count, &code[0..n], &mut out[0..o]);
    print::text(rt, b"codes of ")?;
    print::text(rt, state)?;
    show_answer(rt, answer)?;
    show_output(rt, &out)
}

fn written(rt: &impl Print) -> io::Result<()> {
    let table = b"OH000OWN OH001OLD OH007OLD OK002OLD";
    line(rt, table, 880, 4, b"OH", 12)?;
    line(rt, table, 880, 4, b"OH", 6)?;
    line(rt, table, 880, 4, b"OK", 3)?;
    line(rt, table, 880, 3, b"OK", 0)?;
    line(rt, table, 880, 4, b"AK", 0)?;
    line(rt, table, 0, 0, b"OH", 0)
}

fn refused(rt: &impl Print) -> io::Result<()> {
    let table = b"OH000OWN OH001OLD OH007OLD OK002OLD";
    line(rt, table, 879, 3, b"ZZ", 12)?;
    line(rt, table, 880, 5, b"OH", 12)?;
    line(
        rt,
        b"OH000OWN OH001OLD OH007OLD OK002BAD",
        880,
        4,
        b"OH",
        12,
    )?;
    line(
        rt,
        b"OH000OWN OH001OLD OH007OLD AK002OLD",
        880,
        4,
        b"OH",
        12,
    )?;
    line(rt, table, 880, 4, b"ZZ", 0)?;
    line(rt, table, 880, 4, b"O", 0)?;
    line(rt, table, 880, 4, b"OHX", 0)?;
    line(rt, table, 880, 4, b"OH", 5)?;
    line(rt, table, 880, 4, b"OK", 2)
}

pub fn vectors(rt: &impl Print) -> io::Result<()> {
    written(rt)?;
    refused(rt)
}
