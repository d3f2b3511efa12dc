// Space for four contact records, each described by eight characters: the key and a mark for line 1.
ghost use Rattle.std.specs.Prelude.{◌≤◌};

use contactrecord::chart_a3;
use std::io;
use text::fields;
use text::fields::Columns;
use vector_text::ebcdic::{read, write};
use vector_text::print;

const KEY: Columns = Columns { first: 1, last: 5 };

// The record with a text in some columns.
fn with(mut rec: [u8; 220], columns: Columns, text: &[u8]) -> [u8; 220] {
    let last = columns.last;
    if columns.first >= 1 {
        let at = columns.first - 1;
        if at <= last {
            if last <= 220 {
                write(text, &mut rec[at..last]);
            }
        }
    }
    rec
}

// A good record but for its telephone and line 1.
fn plain(key: &[u8]) -> [u8; 220] {
    let rec = with([0x40u8; 220], KEY, key);
    let rec = with(rec, chart_a3::AGENCY_NAME, b"BUREAU OF CHILD SUPPORT");
    with(rec, chart_a3::LINE_4, b"COLUMBUS OH 43215")
}

// The record of a key with a mark; one with the mark BAD has no telephone and is faulty, one with ALL has every field that may be blank.
fn contact(key: &[u8], mark: &[u8]) -> [u8; 220] {
    let rec = with(plain(key), chart_a3::LINE_1, mark);
    if fields::same(mark, b"BAD") {
        return rec;
    }
    let rec = with(rec, chart_a3::TELEPHONE_1, b"(301) 555-1212");
    if fields::same(mark, b"ALL") {
        let rec = with(rec, chart_a3::EXTENSION_1, b"1");
        let rec = with(rec, chart_a3::TELEPHONE_2, b"(800) 555-1212");
        return with(rec, chart_a3::EXTENSION_2, b"2");
    }
    rec
}

// The space with the record of a list's place i, where the list has one; entries stand nine apart.
fn with_entry(mut four: [u8; 880], i: usize, list: &[u8]) -> [u8; 880] {
    if i < 4 {
        let at = i * 9;
        let mark = at + 5;
        let end = mark + 3;
        if end <= list.len() {
            let rec = contact(&list[at..mark], &list[mark..end]);
            fields::copy_in(&mut four, i * 220, &rec);
        }
    }
    four
}

// The records of a list of up to four, as `OH001OLD OH003BAD`; nines behind them.
pub fn of_list(list: &[u8]) -> [u8; 880] {
    let four = with_entry([0xF9u8; 880], 0, list);
    let four = with_entry(four, 1, list);
    let four = with_entry(four, 2, list);
    with_entry(four, 3, list)
}

// The smaller of two numbers.
pub fn least(a: usize, b: usize) -> usize
    ensures { result ≤ b }
{
    if a < b { a } else { b }
}

// Some columns of the record at a place, in ASCII.
fn show_columns(
    rt: &impl Print,
    four: &[u8],
    place: usize,
    column: usize,
    width: usize,
) -> io::Result<()> {
    let at = least(place, 3) * 220 + least(column, 200);
    let mut text = [0u8; 20];
    if four.len() == 880 {
        read(&four[at..], &mut text);
        let n = least(width, 20);
        print::text(rt, &text[0..n])?;
    }
    Ok(())
}

// The key and the mark at a place.
fn show_place(rt: &impl Print, four: &[u8], place: usize) -> io::Result<()> {
    print::text(rt, b" ")?;
    show_columns(rt, four, place, 0, 5)?;
    show_columns(rt, four, place, 76, 3)
}

// Each place.
pub fn show(rt: &impl Print, four: &[u8; 880]) -> io::Result<()> {
    show_place(rt, four, 0)?;
    show_place(rt, four, 1)?;
    show_place(rt, four, 2)?;
    show_place(rt, four, 3)
}

// The telephone numbers and extensions at the first place.
pub fn show_telephones(rt: &impl Print, four: &[u8; 880]) -> io::Result<()> {
    print::text(rt, b" [")?;
    show_columns(rt, four, 0, 5, 18)?;
    show_columns(rt, four, 0, 23, 18)?;
    print::text(rt, b"]")
}
