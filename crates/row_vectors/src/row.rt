// Rows: a live and a deleted row, and changes for each condition of a sound row.
use crate::lists;
use crate::lists::Subject;
use casemaster::row::{Form, is_live, is_sound_row};
use std::io;
use vector_text::ebcdic::write;
use vector_text::print;

// The row with a text in EBCDIC from a column on; columns count from 1.
fn with(mut row: [u8; 200], column: usize, text: &[u8]) -> [u8; 200] {
    if column >= 1 {
        let at = column - 1;
        if at < 200 {
            write(text, &mut row[at..]);
        }
    }
    row
}

// The row with a byte in a column.
fn with_byte(mut row: [u8; 200], column: usize, b: u8) -> [u8; 200] {
    if column >= 1 {
        let at = column - 1;
        if at < 200 {
            row[at] = b;
        }
    }
    row
}

// A live row of 25 dollars.
fn live() -> [u8; 200] {
    let row = with([0x40u8; 200], 1, b"OH123456789N000");
    let row = with(row, 31, b"SMITH               JOHN");
    let row = with(row, 66, b"00000025     000000000000");
    let row = with(row, 197, b"00");
    with_byte(row, 195, 0x00)
}

fn deleted() -> [u8; 200] {
    let row = with(live(), 66, b"00000000");
    with(row, 196, b"D")
}

// A live row of 50 cents.
fn fifty_cents() -> [u8; 200] {
    let row = with(live(), 66, b"00000000");
    with(row, 197, b"50")
}

// A live row of 25 dollars, without cents.
fn old() -> [u8; 200] {
    with(live(), 197, b"    ")
}

// Whether the live row with a text from a column on is sound.
pub fn is_live_row_sound(column: usize, text: &[u8]) -> bool {
    let row = with(live(), column, text);
    is_sound_row(&row, Form::New)
}

// Whether the deleted row with a text from a column on is sound.
pub fn is_deleted_row_sound(column: usize, text: &[u8]) -> bool {
    let row = with(deleted(), column, text);
    is_sound_row(&row, Form::New)
}

// Whether the row of 50 cents with a text from a column on is sound.
pub fn is_cents_row_sound(column: usize, text: &[u8]) -> bool {
    let row = with(fifty_cents(), column, text);
    is_sound_row(&row, Form::New)
}

// Whether the row without cents, with a text from a column on, is sound as a row without them.
pub fn is_old_row_sound(column: usize, text: &[u8]) -> bool {
    let row = with(old(), column, text);
    is_sound_row(&row, Form::Old)
}

// The live row with a byte in a column.
fn byte(rt: &impl Print, column: usize, b: u8) -> io::Result<()> {
    let row = with_byte(live(), column, b);
    print!(rt; "sound row, column {column} byte {b:02x} ")?;
    print::answer(rt, is_sound_row(&row, Form::New))
}

fn live_rows(rt: &impl Print) -> io::Result<()> {
    let row = live();
    print::text(rt, b"live ")?;
    print::answer(rt, is_live(&row))?;
    let row = deleted();
    print::text(rt, b"deleted live ")?;
    print::answer(rt, is_live(&row))
}

fn statuses(rt: &impl Print) -> io::Result<()> {
    lists::each(rt, Subject::Row(196), b"sound row, status| |D|L|d|0")?;
    lists::each(
        rt,
        Subject::DeletedRow(196),
        b"sound deleted row, status|D| |E|d|0",
    )?;
    lists::each(
        rt,
        Subject::DeletedRow(73),
        b"sound deleted row, last digit of arrearage|0|5|A| ",
    )?;
    lists::each(
        rt,
        Subject::DeletedRow(66),
        b"sound deleted row, first digit of arrearage|0|1|A| ",
    )
}

fn keys(rt: &impl Print) -> io::Result<()> {
    lists::each(rt, Subject::Row(1), b"sound row, state|OH|AK|WY|ZZ|O |oh")?;
    lists::each(
        rt,
        Subject::Row(3),
        b"sound row, ssn|900000000|666123456|123004567|12345678A",
    )?;
    lists::each(rt, Subject::Row(12), b"sound row, case type|A|N|B| ")
}

fn digits(rt: &impl Print) -> io::Result<()> {
    lists::each(
        rt,
        Subject::Row(13),
        b"sound row, local code|000|777|   |A00|00A",
    )?;
    let arrearages =
        b"sound row, arrearage|00000000|00000001|99999999|        |A0000025|0000002A|0000 025";
    lists::each(rt, Subject::Row(66), arrearages)?;
    let payments =
        b"sound row, payment|000000000000|200799999999|    00000000|2007        |A00000000000|000A00000000";
    lists::each(rt, Subject::Row(79), payments)?;
    lists::each(
        rt,
        Subject::Row(83),
        b"sound row, column 83|A0000000|0000000A",
    )
}

fn names(rt: &impl Print) -> io::Result<()> {
    let texts =
        b"sound row, name|LI   |O-NE |-A   |--   |O NE |     |SMI1 | SMI |LI  H|    H|SMIT1";
    lists::each(rt, Subject::Row(31), texts)?;
    lists::each(
        rt,
        Subject::Row(35),
        b"sound row, columns 35-50|1234567890123456",
    )
}

fn filler(rt: &impl Print) -> io::Result<()> {
    lists::each(
        rt,
        Subject::Row(199),
        b"sound row, columns 199-200|  |X | 0|00|-",
    )
}

fn cents(rt: &impl Print) -> io::Result<()> {
    lists::each(
        rt,
        Subject::Row(197),
        b"sound row, cents|00|01|99|  |0 | 0|A0|0A",
    )?;
    lists::each(
        rt,
        Subject::DeletedRow(197),
        b"sound deleted row, cents|00|01|10|  ",
    )?;
    lists::each(
        rt,
        Subject::CentsRow(196),
        b"sound row of 50 cents, status| |D",
    )?;
    lists::each(
        rt,
        Subject::CentsRow(197),
        b"sound row of 50 cents, cents|01|10|00",
    )
}

fn old_rows(rt: &impl Print) -> io::Result<()> {
    lists::each(
        rt,
        Subject::OldRow(197),
        b"sound row without cents, columns 197-200|    |00  |X   |  X |   -",
    )?;
    lists::each(
        rt,
        Subject::OldRow(66),
        b"sound row without cents, arrearage|00000001|00000000",
    )
}

fn free_columns(rt: &impl Print) -> io::Result<()> {
    lists::each(
        rt,
        Subject::Row(16),
        b"sound row, case ID|ABCDEFGHIJ12345|               ",
    )?;
    lists::each(
        rt,
        Subject::Row(51),
        b"sound row, first name|123456789012345|               ",
    )?;
    lists::each(rt, Subject::Row(74), b"sound row, transfer|ZZABC|OH001")?;
    lists::each(
        rt,
        Subject::Row(176),
        b"sound row, address state and ZIP|ZZABCDEFGHI",
    )?;
    lists::each(rt, Subject::Row(187), b"sound row, date|19000229|ABCDEFGH")
}

fn bytes(rt: &impl Print) -> io::Result<()> {
    byte(rt, 195, 0xFF)?;
    byte(rt, 195, 0x40)?;
    byte(rt, 194, 0xFF)?;
    byte(rt, 196, 0x00)?;
    byte(rt, 200, 0x00)?;
    byte(rt, 16, 0xFF)?;
    byte(rt, 65, 0xFF)?;
    byte(rt, 66, 0xFF)?;
    byte(rt, 74, 0xFF)?;
    byte(rt, 78, 0xFF)?;
    byte(rt, 79, 0xFF)?;
    byte(rt, 90, 0xFF)?;
    byte(rt, 91, 0xFF)
}

pub fn vectors(rt: &impl Print) -> io::Result<()> {
    live_rows(rt)?;
    statuses(rt)?;
    keys(rt)?;
    digits(rt)?;
    names(rt)?;
    filler(rt)?;
    cents(rt)?;
    old_rows(rt)?;
    free_columns(rt)?;
    bytes(rt)
}
