// A case's row: its columns and its soundness.
ghost use Rattle.std.specs.Prelude.{◌≡◌, true, ◌<◌, length, take, drop};
ghost use Rattle.text.specs.Fields.{columns, is_zero, all_digits};
ghost use Rattle.text.specs.ByteNumbers.{bytes_number};
ghost use Rattle.layout.specs.StateCodes.{is_state_code};
ghost use Rattle.casemaster.specs.Row.{is_live, is_deleted_exactly, are_fields_sound, is_end_sound, is_old_end_sound};
ghost use Rattle.casemaster.specs.Forms.{is_end_sound_in, is_sound_in};

use layout::{key, name, states};
use text::fields::Columns;
use text::{fields, words};

// The key's columns are the first of a row.
pub const STATE: Columns = key::STATE;

pub const SSN: Columns = key::SSN;

pub const CASE_TYPE: Columns = key::CASE_TYPE;

pub const KEY: Columns = Columns { first: 1, last: 12 };

pub const LOCAL_CODE: Columns = Columns {
    first: 13,
    last: 15,
};

pub const CASE_ID: Columns = Columns {
    first: 16,
    last: 30,
};

pub const LAST_NAME: Columns = Columns {
    first: 31,
    last: 50,
};

pub const NAME_FRONT: Columns = Columns {
    first: 31,
    last: 34,
};

pub const FIRST_NAME: Columns = Columns {
    first: 51,
    last: 65,
};

pub const ARREARAGE: Columns = Columns {
    first: 66,
    last: 73,
};

pub const TRANSFER_STATE: Columns = Columns {
    first: 74,
    last: 75,
};

pub const TRANSFER_LOCAL_CODE: Columns = Columns {
    first: 76,
    last: 78,
};

pub const PAYMENT_YEAR: Columns = Columns {
    first: 79,
    last: 82,
};

pub const PAYMENT: Columns = Columns {
    first: 83,
    last: 90,
};

pub const PAYMENT_FIELDS: Columns = Columns {
    first: 79,
    last: 90,
};

pub const LINE_1: Columns = Columns {
    first: 91,
    last: 120,
};

pub const LINE_2: Columns = Columns {
    first: 121,
    last: 150,
};

pub const CITY: Columns = Columns {
    first: 151,
    last: 175,
};

pub const ADDRESS_STATE: Columns = Columns {
    first: 176,
    last: 177,
};

pub const ZIP: Columns = Columns {
    first: 178,
    last: 186,
};

pub const ADDRESS: Columns = Columns {
    first: 91,
    last: 186,
};

pub const DATE_ISSUED: Columns = Columns {
    first: 187,
    last: 194,
};

pub const EXCLUSIONS: Columns = Columns {
    first: 195,
    last: 195,
};

pub const STATUS: Columns = Columns {
    first: 196,
    last: 196,
};

pub const CENTS: Columns = Columns {
    first: 197,
    last: 198,
};

pub const FILLER: Columns = Columns {
    first: 199,
    last: 200,
};

// The spaces of a row without cents.
const OLD_FILLER: Columns = Columns {
    first: 197,
    last: 200,
};

// The status bytes: live and deleted.
pub const LIVE: u8 = 0x40;

pub const DELETED: u8 = 0xC4;

// The form of a row: before it had cents, or with them.
#[derive(Clone, Copy)]
pub enum Form {
    Old,
    New,
}

// Whether a row is live.
pub fn is_live(row: &[u8]) -> bool
    requires { length row.now ≡ 200 }
    ensures { result ≡ is_live row.now }
{
    row[195] == LIVE
}

// Whether the status is D exactly when something is zero, and else a space.
fn is_deleted_at(row: &[u8], zero: bool) -> bool
    requires { length row.now ≡ 200 }
    ensures { result ≡ is_deleted_exactly zero row.now }
{
    if zero {
        row[195] == DELETED
    } else {
        row[195] == LIVE
    }
}

// Whether the arrearage, columns 66–73, is digits.
fn has_arrearage_digits(row: &[u8]) -> bool
    requires { length row.now ≡ 200 }
    ensures { result ≡ all_digits (columns 66 73 row.now) }
{
    words::are_eight_digits(words::eight_number(row, 65))
}

// Whether it is zero.
fn has_zero_arrearage(row: &[u8]) -> bool
    requires { length row.now ≡ 200 }
    ensures { result ≡ is_zero (columns 66 73 row.now) }
{
    words::are_eight_zeros(words::eight_number(row, 65))
}

// Whether the fields between the key and the status hold what a sound row's hold.
fn are_fields_sound(row: &[u8]) -> bool
    requires { length row.now ≡ 200 }
    ensures { result ≡ are_fields_sound row.now }
{
    if !fields::all_digits(fields::field(row, LOCAL_CODE)) {
        return false;
    }
    if !has_arrearage_digits(row) {
        return false;
    }
    if !fields::all_digits(fields::field(row, PAYMENT_FIELDS)) {
        return false;
    }
    name::is_lettered_name(fields::field(row, NAME_FRONT))
}

// Whether the status and what stands behind it are a sound row's.
fn is_end_sound(row: &[u8]) -> bool
    requires { length row.now ≡ 200 }
    ensures { result ≡ is_end_sound row.now }
{
    let dollars = has_zero_arrearage(row);
    let cents = fields::is_zero(fields::field(row, CENTS));
    let status = is_deleted_at(row, dollars & cents);
    let digits = fields::all_digits(fields::field(row, CENTS));
    let filler = fields::is_blank(fields::field(row, FILLER));
    status & (digits & filler)
}

// The same of a row without cents.
fn is_old_end_sound(row: &[u8]) -> bool
    requires { length row.now ≡ 200 }
    ensures { result ≡ is_old_end_sound row.now }
{
    let status = is_deleted_at(row, has_zero_arrearage(row));
    let filler = fields::is_blank(fields::field(row, OLD_FILLER));
    status & filler
}

// The same of a row of either form.
fn is_end_sound_in(row: &[u8], form: Form) -> bool
    requires { length row.now ≡ 200 }
    ensures { result ≡ is_end_sound_in form row.now }
{
    match form {
        Form::Old => is_old_end_sound(row),
        Form::New => is_end_sound(row),
    }
}

// Whether a row is sound, given the numbers of its key's first eight bytes and last four; a state of the table whose number is known
// already is not looked up again.
pub fn is_sound_row_in(row: &[u8], known: u16, front: u64, back: u64, form: Form) -> bool
    requires row_len { (length row.now ≡ 200) × (is_state_code known ≡ true) × (back < 4294967296) }
    requires front_value { (front ≡ bytes_number (take 8 row.now)) × (back ≡ bytes_number (take 4 (drop 8 row.now))) }
    ensures { result ≡ is_sound_in form row.now }
{
    if !key::is_sound_key_in(known, front, back) {
        return false;
    }
    if !are_fields_sound(row) {
        return false;
    }
    is_end_sound_in(row, form)
}

// Whether a row is sound.
pub fn is_sound_row(row: &[u8], form: Form) -> bool
    requires { length row.now ≡ 200 }
    ensures { result ≡ is_sound_in form row.now }
{
    let front = words::eight_number(row, 0);
    let back = words::four_number(row, 8);
    is_sound_row_in(row, states::FIRST_CODE, front, back, form)
}
