// The three kinds of line on a page, 132 columns each: that of a live row, the heading and the foot.
ghost use Rattle.std.specs.Prelude.{◌≡◌, length};
ghost use Rattle.std.specs.Int.Count.{ones};
ghost use Rattle.pages.specs.Forms.{case_line, heading, foot};

use casemaster::row;
use text::fields;
use text::fields::Columns;

pub const PAGE_WIDTH: usize = 132;

// How many digits a page number has.
const PAGE_DIGITS: usize = 6;

const KEY: Columns = Columns { first: 1, last: 12 };

const LOCAL_CODE: Columns = Columns {
    first: 14,
    last: 16,
};

const LAST_NAME: Columns = Columns {
    first: 18,
    last: 37,
};

const FIRST_NAME: Columns = Columns {
    first: 39,
    last: 53,
};

const ARREARAGE: Columns = Columns {
    first: 55,
    last: 62,
};

const BITS_SET: Columns = Columns {
    first: 64,
    last: 64,
};

// The word at the front of a heading or a foot.
const WORD: Columns = Columns { first: 1, last: 5 };

const PAGE_NUMBER: Columns = Columns {
    first: 7,
    last: 6 + PAGE_DIGITS,
};

const LINE_COUNT: Columns = Columns { first: 7, last: 10 };

// How many bits of an exclusion set are set.
fn bits_set(set: u8) -> u64
    ensures { result ≡ ones set }
{
    u8::count_ones(set) as u64
}

// The line of a live row.
pub fn line_of(row: &[u8]) -> [u8; 132]
    requires { length row.now ≡ 200 }
    ensures { result ≡ case_line row.now }
{
    let mut line = [0x40u8; 132];
    fields::copy(&mut line, KEY, row, row::KEY);
    fields::copy(&mut line, LOCAL_CODE, row, row::LOCAL_CODE);
    fields::copy(&mut line, LAST_NAME, row, row::LAST_NAME);
    fields::copy(&mut line, FIRST_NAME, row, row::FIRST_NAME);
    fields::copy(&mut line, ARREARAGE, row, row::ARREARAGE);
    fields::put_number(&mut line, BITS_SET, bits_set(row[194]));
    line
}

// The heading of the page with a number.
pub fn heading_of(number: u64) -> [u8; 132]
    ensures { result ≡ heading number }
{
    let mut line = [0x40u8; 132];
    fields::put(&mut line, WORD, b"\xC3\xC1\xE2\xC5\xE2");
    fields::put_number(&mut line, PAGE_NUMBER, number);
    line
}

// The foot of a page with `lines` lines.
pub fn foot_of(lines: usize) -> [u8; 132]
    ensures { result ≡ foot lines }
{
    let mut line = [0x40u8; 132];
    fields::put(&mut line, WORD, b"\xE3\xD6\xE3\xC1\xD3");
    fields::put_number(&mut line, LINE_COUNT, lines as u64);
    line
}
