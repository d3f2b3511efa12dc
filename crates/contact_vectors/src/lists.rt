// Lists of texts parted by bars, each text tried in some columns of a good record.
ghost use Rattle.std.specs.Prelude.{◌≤◌, length};

use crate::record;
use std::io;
use text::fields::Columns;
use vector_text::lists::text_end;
use vector_text::print;

// The line of one text.
fn vector(rt: &impl Print, name: &[u8], columns: Columns, text: &[u8]) -> io::Result<()> {
    print::subject(rt, name, text)?;
    print::answer(rt, record::is_good_with(columns, text))
}

// A line for each text from `start` on. A bar at the end of the list ends its last text and starts none.
fn each_from(
    rt: &impl Print,
    name: &[u8],
    columns: Columns,
    list: &[u8],
    start: usize,
) -> io::Result<()>
    requires { start ≤ length list.now }
{
    for text in list[start..].split_inclusive(|b| *b == b'|') {
        vector(rt, name, columns, &text[..text_end(text, 0)])?;
    }
    Ok(())
}

// A line for each text of a list, whose first is the name of what is tried.
pub fn each(rt: &impl Print, columns: Columns, list: &[u8]) -> io::Result<()> {
    let end = text_end(list, 0);
    if end < list.len() {
        each_from(rt, &list[0..end], columns, list, end + 1)?;
    }
    Ok(())
}
