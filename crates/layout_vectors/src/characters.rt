// Characters: the bytes at the boundaries of each class, and the members of each among all 256.
use layout::key::is_case_type;
use layout::name::is_name_byte;
use std::io;
use text::characters::{COMMA, HYPHEN, NINE, SPACE, ZERO, is_digit, is_letter, is_within};
use vector_text::print;

#[derive(Clone, Copy)]
enum Class {
    Letter,
    Digit,
    Name,
    CaseType,
    Hyphen,
}

fn is_of(class: Class, b: u8) -> bool {
    match class {
        Class::Letter => is_letter(b),
        Class::Digit => is_digit(b),
        Class::Name => is_name_byte(b),
        Class::CaseType => is_case_type(b),
        Class::Hyphen => is_within(b, HYPHEN, HYPHEN),
    }
}

fn show(rt: &impl Print, class: Class, b: u8) -> io::Result<()> {
    if is_of(class, b) {
        print!(rt; " {b:02x}")?;
    }
    Ok(())
}

fn each_of(rt: &impl Print, class: Class) -> io::Result<()> {
    for b in 0..=255u8 {
        show(rt, class, b)?;
    }
    print::end(rt)
}

fn classes(rt: &impl Print) -> io::Result<()> {
    print::text(rt, b"letters")?;
    each_of(rt, Class::Letter)?;
    print::text(rt, b"digits")?;
    each_of(rt, Class::Digit)?;
    print::text(rt, b"letters and hyphen")?;
    each_of(rt, Class::Name)?;
    print::text(rt, b"case types")?;
    each_of(rt, Class::CaseType)?;
    print::text(rt, b"from hyphen to hyphen")?;
    each_of(rt, Class::Hyphen)
}

fn judge(rt: &impl Print, b: u8) -> io::Result<()> {
    print!(rt; "byte {b:02x}")?;
    if is_letter(b) {
        print::text(rt, b" letter")?;
    }
    if is_digit(b) {
        print::text(rt, b" digit")?;
    }
    print::end(rt)
}

fn judge_each(rt: &impl Print, s: &[u8]) -> io::Result<()> {
    for b in s {
        judge(rt, *b)?;
    }
    Ok(())
}

pub fn vectors(rt: &impl Print) -> io::Result<()> {
    print::text(rt, b"space, hyphen, comma, zero, nine ")?;
    let named = [SPACE, HYPHEN, COMMA, ZERO, NINE];
    print::hex(rt, &named)?;
    print::end(rt)?;
    judge_each(
        rt,
        b"\x40\x60\x6B\x81\xC0\xC1\xC9\xCA\xD0\xD1\xD9\xDA\xE1\xE2\xE9\xEA\xEF\xF0\xF9\xFA",
    )?;
    classes(rt)
}
