// What differs between a row and a wanted row, and refusal 29.
ghost use Rattle.std.specs.Prelude.{◌≡◌, ◌+◌, ◌≤◌, length};
ghost use Rattle.caserecords.specs.Differences.{is_other, is_other_case_id, is_other_local_code, is_other_set, is_other_balance, is_other_elsewhere, is_zero_or_listed, is_barred, refusal29};

use casemaster::row;
use exclusionsets::exclusions;
use layout::locals::LocalCodes;
use text::fields;
use text::fields::Columns;

// The first and last name.
const NAMES: Columns = Columns {
    first: 31,
    last: 65,
};

// The columns from the transfer state to the date issued.
const MIDDLE: Columns = Columns {
    first: 74,
    last: 194,
};

// Whether some columns of two rows differ.
fn is_other(row: &[u8], wanted: &[u8], c: Columns) -> bool
    requires { (length row.now ≡ 200) × (length wanted.now ≡ 200) × (1 ≤ c.first) × (c.first ≤ c.last + 1) × (c.last ≤ 200) }
    ensures { result ≡ is_other c.first c.last row.now wanted.now }
{
    !fields::same(fields::field(row, c), fields::field(wanted, c))
}

// Whether the case ID differs.
pub fn is_other_case_id(row: &[u8], wanted: &[u8]) -> bool
    requires { (length row.now ≡ 200) × (length wanted.now ≡ 200) }
    ensures { result ≡ is_other_case_id row.now wanted.now }
{
    is_other(row, wanted, row::CASE_ID)
}

// Whether the local code differs.
pub fn is_other_local_code(row: &[u8], wanted: &[u8]) -> bool
    requires { (length row.now ≡ 200) × (length wanted.now ≡ 200) }
    ensures { result ≡ is_other_local_code row.now wanted.now }
{
    is_other(row, wanted, row::LOCAL_CODE)
}

// Whether the exclusion set differs.
pub fn is_other_set(row: &[u8], wanted: &[u8]) -> bool
    requires { (length row.now ≡ 200) × (length wanted.now ≡ 200) }
    ensures { result ≡ is_other_set row.now wanted.now }
{
    is_other(row, wanted, row::EXCLUSIONS)
}

// Whether the arrearage or the cents differ.
pub fn is_other_balance(row: &[u8], wanted: &[u8]) -> bool
    requires { (length row.now ≡ 200) × (length wanted.now ≡ 200) }
    ensures { result ≡ is_other_balance row.now wanted.now }
{
    is_other(row, wanted, row::ARREARAGE) | is_other(row, wanted, row::CENTS)
}

// Whether a byte differs that no C, L, R or M record writes.
fn is_other_elsewhere(row: &[u8], wanted: &[u8]) -> bool
    requires { (length row.now ≡ 200) × (length wanted.now ≡ 200) }
    ensures { result ≡ is_other_elsewhere row.now wanted.now }
{
    is_other(row, wanted, row::KEY)
        | is_other(row, wanted, NAMES)
        | is_other(row, wanted, MIDDLE)
        | is_other(row, wanted, row::FILLER)
}

// Whether a code is 000 or listed.
fn is_zero_or_listed(code: &[u8], list: &[u8]) -> bool
    ensures { result ≡ is_zero_or_listed list.now code.now }
{
    fields::same(code, b"\xF0\xF0\xF0") | LocalCodes::unread(list).contains(code)
}

// Whether something that differs can't be changed by C, L, R and M.
fn is_barred(row: &[u8], wanted: &[u8], list: &[u8]) -> bool
    requires { (length row.now ≡ 200) × (length wanted.now ≡ 200) }
    ensures { result ≡ is_barred row.now wanted.now list.now }
{
    let live = row::is_live(row);
    let elsewhere = is_other_elsewhere(row, wanted);
    let other_id = is_other_case_id(row, wanted);
    let no_id = fields::is_blank(fields::field(wanted, row::CASE_ID));
    let other_code = is_other_local_code(row, wanted);
    let good_code = is_zero_or_listed(fields::field(wanted, row::LOCAL_CODE), list);
    let other_set = is_other_set(row, wanted);
    let good_set = exclusions::is_widened(wanted[194]);
    let other_balance = is_other_balance(row, wanted);
    let no_cents = fields::is_zero(fields::field(wanted, row::CENTS));
    !live
        | elsewhere
        | (other_id & no_id)
        | (other_code & !good_code)
        | (other_set & !good_set)
        | (other_balance & !no_cents)
}

// Refusal 29.
pub fn is_refused(row: &[u8], wanted: &[u8], list: &[u8]) -> bool
    requires { (length row.now ≡ 200) × (length wanted.now ≡ 200) }
    ensures { result ≡ refusal29 row.now wanted.now list.now }
{
    let same = fields::same(row, wanted);
    let barred = is_barred(row, wanted, list);
    !same & barred
}
