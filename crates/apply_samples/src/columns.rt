// EBCDIC columns from ASCII text.
use text::fields;
use vector_text::ebcdic::from_ascii;

// Writes a byte i columns behind a column, which count from 1, where there is one.
fn put_byte(out: &mut [u8], column: usize, i: usize, b: u8) {
    if i < out.len() {
        if column <= out.len() - i {
            if 1 <= column {
                out[column - 1 + i] = b;
            }
        }
    }
}

// Writes a text into the columns from one on.
pub fn put(out: &mut [u8], column: usize, text: &[u8]) {
    for (i, b) in text.iter().enumerate() {
        put_byte(out, column, i, from_ascii(*b));
    }
}

// Writes the lowest digits of a number into the columns from one to another.
pub fn put_number(out: &mut [u8], first: usize, last: usize, n: u64) {
    let mut left = n;
    for column in (first..=last).rev() {
        put_byte(out, column, 0, 0xF0 + (left % 10) as u8);
        left /= 10;
    }
}

// Copies s over out from index `at` on, if there is room.
pub fn place(out: &mut [u8], at: usize, s: &[u8]) {
    if s.len() <= out.len() {
        if at <= out.len() - s.len() {
            fields::copy_in(out, at, s);
        }
    }
}
