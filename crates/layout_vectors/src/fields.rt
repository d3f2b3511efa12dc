// Fields: columns from 1, blank fields, digits and numbers.
use crate::lists::Subject;
use crate::{ebcdic, lists};
use std::io;
use text::fields::{
    Columns, all_digits, copy, copy_in, field, number_at, number_of, put, put_number, same,
};
use vector_text::ebcdic::write;
use vector_text::print;

// The number of a whole field.
pub fn value(rt: &impl Print, s: &[u8]) -> io::Result<()> {
    if s.len() <= 18 && all_digits(s) {
        println!(rt; "{}", number_of(s))
    } else {
        println!(rt; "none")
    }
}

// The number of columns 3 to 13.
pub fn value_inside(rt: &impl Print, s: &[u8; 40]) -> io::Result<()> {
    let c = Columns { first: 3, last: 13 };
    if all_digits(field(s, c)) {
        println!(rt; "{}", number_at(s, c))
    } else {
        println!(rt; "none")
    }
}

// A number in columns 2 to 10 of eleven spaces.
fn nine_wide(rt: &impl Print, n: u64) -> io::Result<()> {
    let mut s = [0x40u8; 11];
    put_number(&mut s, Columns { first: 2, last: 10 }, n);
    print!(rt; "nine digits of {n} ")?;
    ebcdic::columns(rt, &s)
}

fn parts(rt: &impl Print) -> io::Result<()> {
    let s = letters();
    print::text(rt, b"columns 1-8 ")?;
    ebcdic::columns(rt, field(&s, Columns { first: 1, last: 8 }))?;
    print::text(rt, b"columns 3-5 ")?;
    ebcdic::columns(rt, field(&s, Columns { first: 3, last: 5 }))?;
    print::text(rt, b"columns 8-8 ")?;
    ebcdic::columns(rt, field(&s, Columns { first: 8, last: 8 }))
}

fn letters() -> [u8; 8] {
    let mut s = [0x40u8; 8];
    write(b"ABCDEFGH", &mut s);
    s
}

fn with_two_put() -> [u8; 8] {
    let mut s = letters();
    put(&mut s, Columns { first: 3, last: 4 }, b"\xE7\xE8");
    s
}

fn with_three_copied() -> [u8; 8] {
    let mut s = with_two_put();
    copy(
        &mut s,
        Columns { first: 6, last: 8 },
        b"\xF0\xF1\xF2\xF3\xF4",
        Columns { first: 2, last: 4 },
    );
    s
}

fn changes(rt: &impl Print) -> io::Result<()> {
    print::text(rt, b"XY put in 3-4 ")?;
    ebcdic::columns(rt, &with_two_put())?;
    print::text(rt, b"2-4 of 01234 copied to 6-8 ")?;
    let mut s = with_three_copied();
    ebcdic::columns(rt, &s)?;
    copy_in(&mut s, 0, b"\xE9");
    print::text(rt, b"Z copied in at 0 ")?;
    ebcdic::columns(rt, &s)
}

fn equal(rt: &impl Print, a: &[u8], b: &[u8]) -> io::Result<()> {
    print::subject(rt, b"same", a)?;
    print::subject(rt, b"as", b)?;
    print::answer(rt, same(a, b))
}

fn numbers(rt: &impl Print) -> io::Result<()> {
    let texts =
        b"number|00000000125|99999999999|10000000001|00000000000|0000000012A|00000025|7|999999999999999999";
    lists::each(rt, Subject::Number, texts)?;
    let inside = b"number in 3-13|AB00000000125CD|0099999999999 1|AB0000000012 CD|AB 0000000012CD";
    lists::each(rt, Subject::NumberInside, inside)?;
    nine_wide(rt, 0)?;
    nine_wide(rt, 125)?;
    nine_wide(rt, 999999999)?;
    nine_wide(rt, 1000000000)?;
    nine_wide(rt, 1234567890123)
}

fn equals(rt: &impl Print) -> io::Result<()> {
    equal(rt, b"OH", b"OH")?;
    equal(rt, b"OH", b"OK")?;
    equal(rt, b"OH", b"PH")?;
    equal(rt, b"OH", b"O")?;
    equal(rt, b"", b"")
}

pub fn vectors(rt: &impl Print) -> io::Result<()> {
    lists::each(rt, Subject::Blank, b"blank|    | |   A|A   | 0  | -  ||")?;
    let texts = b"four digits|2007|0000|9999|20 7|200A|A007|    |200|20077||";
    lists::each(rt, Subject::Digits(4), texts)?;
    numbers(rt)?;
    parts(rt)?;
    changes(rt)?;
    equals(rt)
}
