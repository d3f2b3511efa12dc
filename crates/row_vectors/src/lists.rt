// Lists of texts parted by bars, each text tried as a key, as two keys or as a part of a row.
ghost use Rattle.std.specs.Prelude.{◌≤◌, length};

use crate::{key, row};
use layout::key::is_sound_key;
use std::io;
use vector_text::ebcdic::write;
use vector_text::lists::text_end;
use vector_text::print;

// What a text is tried as.
#[derive(Clone, Copy)]
pub enum Subject {
    Key,
    Order,
    Rising(usize),
    Row(usize),
    DeletedRow(usize),
    CentsRow(usize),
    OldRow(usize),
}

// The line of one text, in a field of forty columns with spaces behind it.
fn vector(rt: &impl Print, name: &[u8], subject: Subject, text: &[u8]) -> io::Result<()> {
    let mut field = [0x40u8; 40];
    let n = write(text, &mut field);
    print::subject(rt, name, text)?;
    match subject {
        Subject::Key => print::answer(rt, is_sound_key(&field[..n])),
        Subject::Order => key::order(rt, text),
        Subject::Rising(n) => print::answer(rt, key::is_rising_by_two(&field, n)),
        Subject::Row(column) => print::answer(rt, row::is_live_row_sound(column, text)),
        Subject::DeletedRow(column) => print::answer(rt, row::is_deleted_row_sound(column, text)),
        Subject::CentsRow(column) => print::answer(rt, row::is_cents_row_sound(column, text)),
        Subject::OldRow(column) => print::answer(rt, row::is_old_row_sound(column, text)),
    }
}

// A line for each text from `start` on. A bar at the end of the list ends its last text and starts none.
fn each_from(
    rt: &impl Print,
    name: &[u8],
    subject: Subject,
    list: &[u8],
    start: usize,
) -> io::Result<()>
    requires { start ≤ length list.now }
{
    for text in list[start..].split_inclusive(|b| *b == b'|') {
        vector(rt, name, subject, &text[..text_end(text, 0)])?;
    }
    Ok(())
}

// A line for each text of a list, whose first is the name of what is tried.
pub fn each(rt: &impl Print, subject: Subject, list: &[u8]) -> io::Result<()> {
    let end = text_end(list, 0);
    if end < list.len() {
        each_from(rt, &list[0..end], subject, list, end + 1)?;
    }
    Ok(())
}
