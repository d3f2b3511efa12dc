// Records and rows from texts. A record's text is its type and then fields, each the column that it starts at, counted from 1, and
// in brackets what stands there: `A 30[SMYTH] 65[00000024]`. What it doesn't name is as in the base record: OH, SSN 123456789,
// SMITH JOHN, 25, N, else blank.
use crate::scan;
use onecase::case::Case;
use text::fields;
use text::fields::Columns;

// Writes a text in EBCDIC from a column on; one that doesn't fit is left out.
fn write(columns: &mut [u8], first: usize, text: &[u8]) {
    let mut field = [0x40u8; 64];
    let n = vector_text::ebcdic::write(text, &mut field);
    if first < 1 {
        return;
    }
    let before = first - 1;
    if columns.len() < before {
        return;
    }
    if columns.len() - before < n {
        return;
    }
    let last = before + n;
    fields::put(columns, Columns { first, last }, &field[..n]);
}

// Writes one field: `65[00000024`.
fn write_field(columns: &mut [u8], field: &[u8]) {
    let open = scan::place(field, 0, b'[');
    if open < field.len() {
        let first = scan::number(&field[0..open]) as usize;
        let start = open + 1;
        write(columns, first, &field[start..]);
    }
}

// Writes all fields of a text.
fn fill(columns: &mut [u8], text: &[u8]) {
    for field in text.split_inclusive(|b| *b == b']') {
        write_field(columns, &field[..scan::place(field, 0, b']')]);
    }
}

// The base record, with no type yet.
pub fn base() -> [u8; 245] {
    let mut rec = [0x40u8; 245];
    fill(
        &mut rec,
        b"1[OH] 6[123456789] 30[SMITH] 50[JOHN] 65[00000025] 74[N]",
    );
    rec
}

// The record that a text describes over the base record.
pub fn described(base: [u8; 245], text: &[u8]) -> [u8; 245] {
    let mut rec = base;
    if text.len() > 0 {
        write(&mut rec, 73, &text[0..1]);
        fill(&mut rec, text);
    }
    rec
}

// The row that a text describes: live, SMITH JOHN with 50 dollars, and the text's fields.
pub fn row(text: &[u8]) -> Case {
    let mut row = [0x40u8; 200];
    row[194] = 0;
    fill(
        &mut row,
        b"1[OH123456789N000] 31[SMITH] 51[JOHN] 66[00000050] 79[000000000000] 197[00]",
    );
    fill(&mut row, text);
    Case { row: Some(row) }
}
