// Lists of texts parted by bars, each text put into EBCDIC and tried by one function of the crate layout.
ghost use Rattle.std.specs.Prelude.{◌≤◌, length};

use crate::{ebcdic, exclusions, fields, locals, name};
use dates::calendar::is_date;
use layout::locals::is_local_list;
use layout::process_year::in_window;
use layout::ssn::wrong_ssn;
use layout::states::is_state;
use layout::zip::is_zip;
use std::io;
use text::fields::{are_digits, is_blank};
use vector_text::ebcdic::write;
use vector_text::lists::text_end;
use vector_text::print;

// What a text is tried as.
#[derive(Clone, Copy)]
pub enum Subject {
    Ebcdic,
    Blank,
    Digits(usize),
    Number,
    NumberInside,
    State,
    Ssn,
    NameForA,
    NameForM,
    Zip,
    Date,
    ProcessYear(u64),
    Words,
    LocalList,
    Listed,
}

// Whether the bytes are what the subject says; false for the subjects with other answers.
fn holds(subject: Subject, s: &[u8]) -> bool {
    match subject {
        Subject::Blank => is_blank(s),
        Subject::Digits(width) => are_digits(s, width),
        Subject::State => is_state(s),
        Subject::Ssn => wrong_ssn(s),
        Subject::NameForA => name::is_right_for_a(s),
        Subject::NameForM => name::is_right_for_m(s),
        Subject::Zip => is_zip(s),
        Subject::Date => is_date(s),
        Subject::ProcessYear(year) => in_window(year, s),
        Subject::LocalList => is_local_list(s),
        Subject::Listed => locals::is_listed(s),
        _ => false,
    }
}

// The line of one text, in a field of forty columns with spaces behind it.
fn vector(rt: &impl Print, name: &[u8], subject: Subject, text: &[u8]) -> io::Result<()> {
    let mut field = [0x40u8; 40];
    let n = write(text, &mut field);
    print::subject(rt, name, text)?;
    match subject {
        Subject::Ebcdic => ebcdic::both_ways(rt, &field[..n]),
        Subject::Number => fields::value(rt, &field[..n]),
        Subject::NumberInside => fields::value_inside(rt, &field),
        Subject::Words => exclusions::read(rt, &field),
        _ => print::answer(rt, holds(subject, &field[..n])),
    }
}

// A line for each text from `start` on. A bar at the end of the list ends its last text and starts none.
fn each_from(
    rt: &impl Print,
    name: &[u8],
    subject: Subject,
    list: &[u8],
    start: usize,
) -> io::Result<()>
    requires { start ≤ length list.now }
{
    for text in list[start..].split_inclusive(|b| *b == b'|') {
        vector(rt, name, subject, &text[..text_end(text, 0)])?;
    }
    Ok(())
}

// A line for each text of a list, whose first is the name of what is tried.
pub fn each(rt: &impl Print, subject: Subject, list: &[u8]) -> io::Result<()> {
    let end = text_end(list, 0);
    if end < list.len() {
        each_from(rt, &list[0..end], subject, list, end + 1)?;
    }
    Ok(())
}
