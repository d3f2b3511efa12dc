// Fields: columns of a record or a row, counted from 1, at any place and of any width.
ghost use Rattle.std.specs.Prelude.{◌≡◌, true, ◌+◌, ◌-◌, ◌≤◌, ◌<◌, ◌^◌, length};
ghost use Rattle.text.specs.Characters.{is_byte};
ghost use Rattle.text.specs.Fields.{columns, placed, Inside, every, is_blank, is_zero, all_digits, are_digits, number, digit_field, same_bytes};
ghost use Rattle.text.specs.Blocks.{spliced};

use crate::characters;

// Columns first to last, counted from 1 as the charts print them.
#[derive(Clone, Copy)]
pub struct Columns {
    pub first: usize,
    pub last: usize,
}

// The bytes of some columns.
pub fn field(s: &[u8], c: Columns) -> &[u8]
    requires { Inside c.first c.last s.now }
    ensures { result.now ≡ columns c.first c.last s.now }
{
    let start = c.first - 1;
    let end = c.last;
    &s[start..end]
}

// Writes all of src over dst from index at.
pub fn copy_in(dst: &mut [u8], at: usize, src: &[u8])
    requires { at + length src.now ≤ length dst.old }
    ensures { dst.new ≡ spliced dst.old at src.now }
{
    let end = at + src.len();
    dst[at..end].copy_from_slice(src);
}

// Writes src, which is as wide as they are, into some columns.
pub fn put(dst: &mut [u8], c: Columns, src: &[u8])
    requires { (Inside c.first c.last dst.old) × (c.last + 1 ≡ c.first + length src.now) }
    ensures { dst.new ≡ placed c.first c.last src.now dst.old }
{
    let at = c.first - 1;
    copy_in(dst, at, src);
}

// Copies the columns `from` of src into the columns `to` of dst, which are as many.
pub fn copy(dst: &mut [u8], to: Columns, src: &[u8], from: Columns)
    requires { (Inside to.first to.last dst.old)
        × (Inside from.first from.last src.now) × (to.last + from.first ≡ from.last + to.first) }
    ensures { dst.new ≡ placed to.first to.last (columns from.first from.last src.now) dst.old }
{
    put(dst, to, field(src, from));
}

// Whether every byte is b. The loop never ends early, so that it runs over several bytes at a time.
pub fn all_are(s: &[u8], b: u8) -> bool
    ensures { result ≡ every (is_byte b) s.now }
{
    s.iter().fold(true, |ok, x| ok & (*x == b))
}

// Whether every byte is a space.
pub fn is_blank(s: &[u8]) -> bool
    ensures { result ≡ is_blank s.now }
{
    all_are(s, 0x40)
}

// Whether every byte is the digit zero.
pub fn is_zero(s: &[u8]) -> bool
    ensures { result ≡ is_zero s.now }
{
    all_are(s, 0xF0)
}

// Whether every byte is a digit. The loop never ends early either.
pub fn all_digits(s: &[u8]) -> bool
    ensures { result ≡ all_digits s.now }
{
    s.iter().fold(true, |ok, b| ok & characters::is_digit(*b))
}

// Whether s is n digits.
pub fn are_digits(s: &[u8], n: usize) -> bool
    ensures { result ≡ are_digits n s.now }
{
    s.len() == n && all_digits(s)
}

// The number that digits write, of which there are at most eighteen.
pub fn number_of(s: &[u8]) -> u64
    requires { (length s.now ≤ 18) × (all_digits s.now ≡ true) }
    ensures { (result ≡ number s.now) × (result < 10 ^ length s.now) }
{
    let mut n: u64 = 0;
    for b in s {
        let d = (*b - 0xF0) as u64;
        n = n * 10 + d;
    }
    n
}

// The number of a digit field of s.
pub fn number_at(s: &[u8], c: Columns) -> u64
    requires { (Inside c.first c.last s.now) × (c.last < c.first + 18) × (all_digits (columns c.first c.last s.now) ≡ true) }
    ensures { (result ≡ number (columns c.first c.last s.now)) × (result < 10 ^ (c.last + 1 - c.first)) }
{
    number_of(field(s, c))
}

// Writes a number as a digit field into some columns: as many of its lowest digits as there are columns.
pub fn put_number(dst: &mut [u8], c: Columns, n: u64)
    requires { Inside c.first c.last dst.old }
    ensures { dst.new ≡ placed c.first c.last (digit_field (c.last + 1 - c.first) n) dst.old }
{
    let mut left = n;
    for i in (c.first - 1..c.last).rev() {
        dst[i] = 0xF0 + (left % 10) as u8;
        left = left / 10;
    }
}

// Whether two runs of bytes are the same. The loop never ends early either.
pub fn same(a: &[u8], b: &[u8]) -> bool
    ensures { result ≡ same_bytes a.now b.now }
{
    a.len() == b.len() && a.iter().zip(b).fold(true, |ok, (x, y)| ok & (*x == *y))
}
