// What the lines are made of: verdicts and rows as ASCII text.
ghost use Rattle.std.specs.Prelude.{◌≤◌, length};

use casemaster::row;
use onecase::case::Case;
use onecase::verdict::{FourBytes, Verdict};
use std::io;
use text::fields;
use text::fields::Columns;
use vector_text::ebcdic::read;
use vector_text::print::{byte, text};

// A code as two digits, where it is in the set.
fn code(rt: &impl Print, holds: bool, c: u64) -> io::Result<()> {
    if holds {
        print!(rt; " {c:02}")?;
    }
    Ok(())
}

// The codes of a set, rising.
fn codes(rt: &impl Print, set: u64) -> io::Result<()> {
    for c in 0..64u64 {
        code(rt, set >> c & 1 == 1, c)?;
    }
    if set == 0 {
        text(rt, b" none")?;
    }
    Ok(())
}

fn four(rt: &impl Print, n: FourBytes) -> io::Result<()> {
    let bytes = [n.a, n.b, n.c, n.d];
    let mut ascii = [b' '; 4];
    read(&bytes, &mut ascii);
    text(rt, b" [")?;
    text(rt, &ascii)?;
    text(rt, b"]")
}

pub fn verdict(rt: &impl Print, v: Verdict) -> io::Result<()> {
    match v {
        Verdict::Accepted(set) => {
            text(rt, b"accepted")?;
            codes(rt, set)?;
        }
        Verdict::Rejected(set) => {
            text(rt, b"rejected")?;
            codes(rt, set)?;
        }
        Verdict::RejectedWithName(set, name) => {
            text(rt, b"rejected")?;
            codes(rt, set)?;
            four(rt, name)?;
        }
    }
    Ok(())
}

// How many bytes stand up to the last that is no space.
fn trimmed_length(s: &[u8]) -> usize
    ensures { result ≤ length s.now }
{
    for last in (0..s.len()).rev() {
        if s[last] != 0x40 {
            return last + 1;
        }
    }
    0
}

// Some bytes up to the last that is no space.
fn trimmed(rt: &impl Print, s: &[u8]) -> io::Result<()> {
    let used = trimmed_length(s);
    let mut ascii = [b' '; 64];
    let n = read(&s[0..used], &mut ascii);
    text(rt, &ascii[..n])
}

fn field(rt: &impl Print, row: &[u8; 200], c: Columns) -> io::Result<()>
    requires { (1 ≤ c.first) × (c.first ≤ c.last) × (c.last ≤ 200) }
{
    text(rt, b"/")?;
    trimmed(rt, fields::field(row, c))
}

// The fields from the arrearage to the date issued.
fn later_fields(rt: &impl Print, row: &[u8; 200]) -> io::Result<()> {
    field(rt, row, row::ARREARAGE)?;
    field(rt, row, row::TRANSFER_STATE)?;
    field(rt, row, row::TRANSFER_LOCAL_CODE)?;
    field(rt, row, row::PAYMENT_YEAR)?;
    field(rt, row, row::PAYMENT)?;
    field(rt, row, row::LINE_1)?;
    field(rt, row, row::LINE_2)?;
    field(rt, row, row::CITY)?;
    field(rt, row, row::ADDRESS_STATE)?;
    field(rt, row, row::ZIP)?;
    field(rt, row, row::DATE_ISSUED)
}

// All fields of a row: the exclusion set as two hexadecimal digits, the others as text.
fn whole_row(rt: &impl Print, row: &[u8; 200]) -> io::Result<()> {
    text(rt, b": ")?;
    trimmed(rt, fields::field(row, row::KEY))?;
    field(rt, row, row::LOCAL_CODE)?;
    field(rt, row, row::CASE_ID)?;
    field(rt, row, row::LAST_NAME)?;
    field(rt, row, row::FIRST_NAME)?;
    later_fields(rt, row)?;
    text(rt, b"/")?;
    byte(rt, row[194])?;
    field(rt, row, row::STATUS)?;
    field(rt, row, row::CENTS)?;
    field(rt, row, row::FILLER)
}

fn status(rt: &impl Print, row: &[u8; 200]) -> io::Result<()> {
    if row::is_live(row) {
        text(rt, b"live ")?;
    } else if row[195] == row::DELETED {
        text(rt, b"deleted ")?;
    } else {
        text(rt, b"neither ")?;
    }
    Ok(())
}

// A row's status, its arrearage and, where asked, all fields.
fn held_row(rt: &impl Print, row: [u8; 200], whole: bool) -> io::Result<()> {
    status(rt, &row)?;
    trimmed(rt, fields::field(&row, row::ARREARAGE))?;
    if whole {
        whole_row(rt, &row)?;
    }
    Ok(())
}

// The row or none that a step leaves.
pub fn case(rt: &impl Print, c: Case, whole: bool) -> io::Result<()> {
    match c.row {
        Some(row) => held_row(rt, row, whole),
        None => text(rt, b"no row"),
    }
}
