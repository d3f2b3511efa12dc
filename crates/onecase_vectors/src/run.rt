// The lines of the vectors; the first byte says of which kind a line is. Each is written back, a record's with its answer.
//   # ..               a heading
//   control OH 2007    the control record's state and the year; the list is empty with `, none listed` behind, else it has 001 and 005
//   no row             the vectors below start from no row
//   row FIELDS         they start from a live row, SMITH JOHN with 50 dollars, with these fields
//   A FIELDS           a record of type A on that row
//   +A FIELDS          a record of type A on what the record before left
// A record's line with a question mark shows the whole row behind it. With an exclamation mark the record's name is among those that B
// records of the key give.
use crate::{print, record, scan};
use judging::setting::Setting;
use layout::locals::LocalCodes;
use onecase::case;
use onecase::case::{Case, Step};
use onecase::verdict::Verdict;
use std::io;
use vector_text::ebcdic::write;

#[derive(Clone, Copy)]
struct Control {
    state: [u8; 2],
    year: u64,
    listed: bool,
}

// Where the reading stands: the control record, the row that vectors start from, and what the last record left.
#[derive(Clone, Copy)]
struct Stand {
    control: Control,
    start: Case,
    last: Case,
}

fn step(case: Case, rec: [u8; 245], given: bool, control: Control) -> Step {
    let list: &[u8] = if control.listed {
        b"\xF0\xF0\xF1\xF0\xF0\xF5"
    } else {
        b""
    };
    let setting = Setting {
        state: &control.state,
        year: control.year,
        locals: LocalCodes::new(list),
    };
    case.step(&rec, given, setting)
}

// Whether a text has a character.
fn has(text: &[u8], character: u8) -> bool {
    scan::place(text, 0, character) < text.len()
}

// The row that a record meets.
fn before(stand: Stand, goes_on: bool) -> Case {
    if goes_on { stand.last } else { stand.start }
}

// The answer behind a record's line.
fn show(rt: &impl Print, verdict: Verdict, after: Case, text: &[u8]) -> io::Result<()> {
    vector_text::print::text(rt, b" -> ")?;
    print::verdict(rt, verdict)?;
    vector_text::print::text(rt, b", ")?;
    print::case(rt, after, has(text, b'?'))
}

// A record: its answer, and where the reading then stands.
fn recorded(
    rt: &impl Print,
    stand: Stand,
    goes_on: bool,
    base: [u8; 245],
    text: &[u8],
) -> io::Result<Stand> {
    let rec = record::described(base, text);
    let control = stand.control;
    let start = stand.start;
    let answer = step(before(stand, goes_on), rec, has(text, b'!'), control);
    let verdict = answer.verdict;
    let last = answer.case;
    show(rt, verdict, last, text)?;
    Ok(Stand {
        control,
        start,
        last,
    })
}

fn started(stand: Stand, start: Case) -> Stand {
    let control = stand.control;
    Stand {
        control,
        start,
        last: start,
    }
}

// The state that a text has from its ninth byte on.
fn state_of(text: &[u8]) -> [u8; 2] {
    let mut state = [0x40u8; 2];
    if text.len() > 8 {
        write(&text[8..], &mut state);
    }
    state
}

fn controlled(stand: Stand, text: &[u8]) -> Stand {
    let comma = scan::place(text, 0, b',');
    let control = Control {
        state: state_of(text),
        year: scan::number(text),
        listed: comma == text.len(),
    };
    let start = stand.start;
    let last = stand.last;
    Stand {
        control,
        start,
        last,
    }
}

// One line.
fn line(rt: &impl Print, stand: Stand, base: [u8; 245], text: &[u8]) -> io::Result<Stand> {
    if text.len() == 0 {
        return Ok(stand);
    }
    vector_text::print::text(rt, text)?;
    let kind = text[0];
    match kind {
        b'#' => Ok(stand),
        b'c' => Ok(controlled(stand, text)),
        b'n' => Ok(started(stand, case::no_case())),
        b'r' => Ok(started(stand, record::row(text))),
        b'+' => recorded(rt, stand, true, base, &text[1..]),
        _ => recorded(rt, stand, false, base, text),
    }
}

// Under OH and 2007, from no row, until the lines say otherwise.
fn beginning() -> Stand {
    let control = Control {
        state: [0xD6, 0xC8],
        year: 2007,
        listed: true,
    };
    let none = case::no_case();
    Stand {
        control,
        start: none,
        last: none,
    }
}

// All lines of a text.
pub fn lines(rt: &impl Print, text: &[u8]) -> io::Result<()> {
    let base = record::base();
    let mut stand = beginning();
    for part in text.split_inclusive(|b| *b == b'\n') {
        stand = line(rt, stand, base, &part[..scan::place(part, 0, b'\n')])?;
        vector_text::print::text(rt, b"\n")?;
    }
    Ok(())
}
