// EBCDIC and ASCII, so that what is tried and what is answered can be read.
ghost use Rattle.std.specs.Prelude.{◌≤◌};
ghost use Rattle.io.specs.Counts.{IsPrefixLen};

use codepage::tables;

// The EBCDIC byte of an ASCII one by the code page; lower case letters and braces, which it leaves out and some vectors have, are added;
// a space for all else.
pub fn from_ascii(b: u8) -> u8 {
    let code = tables::ebcdic_code(b);
    if code != 0 {
        return code;
    }
    match b {
        b'a'..=b'i' => 0x81 + (b - b'a'),
        b'j'..=b'r' => 0x91 + (b - b'j'),
        b's'..=b'z' => 0xA2 + (b - b's'),
        b'{' => 0xC0,
        b'}' => 0xD0,
        _ => 0x40,
    }
}

// The ASCII byte of an EBCDIC one by the code page, and another where there is none.
pub fn to_ascii(b: u8, other: u8) -> u8 {
    let code = tables::ascii_code(b);
    if code == 0 { other } else { code }
}

fn least(a: usize, b: usize) -> usize
    ensures { (result ≤ a) × (result ≤ b) }
{
    if a < b { a } else { b }
}

// Writes an ASCII text in EBCDIC over the front of a field, as much of it as there is room for, and answers how much that is.
pub fn write(text: &[u8], field: &mut [u8]) -> usize
    ensures { IsPrefixLen result field.new }
{
    let n = least(text.len(), field.len());
    for i in 0..n {
        field[i] = from_ascii(text[i]);
    }
    n
}

// Writes a field in ASCII over the front of a text, likewise, with a question mark for what `to_ascii` doesn't know.
pub fn read(field: &[u8], text: &mut [u8]) -> usize
    ensures { IsPrefixLen result text.new }
{
    let n = least(field.len(), text.len());
    for i in 0..n {
        text[i] = to_ascii(field[i], b'?');
    }
    n
}
