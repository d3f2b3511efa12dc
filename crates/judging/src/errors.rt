// A record's errors: a function for each code, and the set of all that hold.
ghost use Rattle.std.specs.Prelude.{◌≡◌, ◌&&◌, ltb, length};
ghost use Rattle.text.specs.Characters;
ghost use Rattle.text.specs.Fields.{columns, are_digits, number};
ghost use Rattle.exclusionsets.specs.Exclusions.{exclusions_of};
ghost use Rattle.layout.specs.Record.{is_type};
ghost use Rattle.text.specs.Options.{is_none};
ghost use Rattle.judging.specs.Errors.{error01, error02, error03, error04, error05, error06, error07, error08, is_live_row, error09, is_local_code, error10, error11, error12, error13, error14, wrong_address, wrong_part, error15, error16, is_other_name, error17, error18};
ghost use Rattle.judging.specs.Parts.{UnderNames};
ghost use Rattle.judging.specs.State.{row_in};

use casemaster::row;
use dates::calendar;
use exclusionsets::exclusions;
use layout::locals::LocalCodes;
use layout::record::TransactionType::{
    Add, Address, CaseId, Exclude, LocalCode, Modify, Payment, Rename, Transfer,
};
use layout::{chart_a1, key, name, process_year, record, ssn, states, zip};
use text::{characters, fields, words};

// Error 01: state not in the table, or not the control record's.
#[tactic(auto, unfolding(crate::specs::Errors::error01))]
pub fn has_01(rec: &[u8; 245], state: &[u8]) -> bool
    ensures { result ≡ error01 state.now rec.now }
{
    let sent = fields::field(rec, chart_a1::SUBMITTING_STATE);
    !states::is_state(sent) | !fields::same(sent, state)
}

// Error 02: the SSN.
#[tactic(auto, unfolding(crate::specs::Errors::error02))]
pub fn has_02(rec: &[u8; 245]) -> bool
    ensures { result ≡ error02 rec.now }
{
    ssn::wrong_ssn(fields::field(rec, chart_a1::SSN))
}

// Error 03: the type.
#[tactic(auto, unfolding(crate::specs::Errors::error03))]
pub fn has_03(rec: &[u8; 245]) -> bool
    ensures { result ≡ error03 rec.now }
{
    !record::is_known_type(rec)
}

// Error 04: the case type.
#[tactic(auto, unfolding(crate::specs::Errors::error04))]
pub fn has_04(rec: &[u8; 245]) -> bool
    ensures { result ≡ error04 rec.now }
{
    !key::is_case_type(rec[chart_a1::CASE_TYPE_AT])
}

// Error 05: the first four columns of the last name.
#[tactic(auto, unfolding(crate::specs::Errors::error05))]
pub fn has_05(rec: &[u8; 245]) -> bool
    ensures { result ≡ error05 rec.now }
{
    let front = fields::field(rec, chart_a1::NAME_FRONT);
    !name::is_name(front)
        | ((record::is_type(rec, Add) | record::is_type(rec, Rename)) & !name::has_letter(front))
}

// Error 06 (A, B): the first name's first column is no letter.
#[tactic(auto, unfolding(crate::specs::Errors::error06))]
pub fn has_06(rec: &[u8; 245]) -> bool
    ensures { result ≡ error06 rec.now }
{
    (record::is_type(rec, Add) | record::is_type(rec, Rename)) & !characters::is_letter(rec[49])
}

// Error 07 (A, M, S): the amount is not eight digits.
#[tactic(auto, unfolding(crate::specs::Errors::error07))]
pub fn has_07(rec: &[u8; 245]) -> bool
    ensures { result ≡ error07 rec.now }
{
    let digits = fields::are_digits(fields::field(rec, chart_a1::ARREARAGE), 8);
    (record::is_type(rec, Add) | record::is_type(rec, Modify) | record::is_type(rec, Payment))
        & !digits
}

// Whether an amount is eight digits, below 25.
fn is_below_25(amount: &[u8]) -> bool
    ensures { result ≡ (are_digits 8 amount.now && ltb (number amount.now) 25) }
{
    if fields::are_digits(amount, 8) {
        fields::number_of(amount) < 25
    } else {
        false
    }
}

// Error 08 (A): digits, below 25.
#[tactic(auto, unfolding(crate::specs::Errors::error08))]
pub fn has_08(rec: &[u8; 245]) -> bool
    ensures { result ≡ error08 rec.now }
{
    if record::is_type(rec, Add) {
        is_below_25(fields::field(rec, chart_a1::ARREARAGE))
    } else {
        false
    }
}

// Whether there is a live row.
#[tactic(auto, unfolding(crate::specs::Errors::is_live_row))]
fn is_live_row(row: Option<&[u8; 200]>) -> bool
    ensures { result ≡ is_live_row (row_in row.entry) }
{
    match row {
        Some(row) => row::is_live(row),
        None => false,
    }
}

// Error 09 (all but A): no live row with this key.
#[tactic(auto, unfolding(crate::specs::Errors::error09))]
pub fn has_09(rec: &[u8; 245], row: Option<&[u8; 200]>) -> bool
    ensures { result ≡ error09 (row_in row.entry) rec.now }
{
    !record::is_type(rec, Add) & !is_live_row(row)
}

// Whether the local code is spaces, 000 or listed.
#[tactic(auto, unfolding(crate::specs::Errors::is_local_code))]
pub fn is_local_code(rec: &[u8; 245], locals: LocalCodes) -> bool
    ensures { result ≡ is_local_code locals.entry.list.now rec.now }
{
    let code = fields::field(rec, chart_a1::LOCAL_CODE);
    fields::is_blank(code) | fields::same(code, b"\xF0\xF0\xF0") | locals.contains(code)
}

// Error 10 (L): the local code.
#[tactic(auto, unfolding(crate::specs::Errors::error10))]
pub fn has_10(rec: &[u8; 245], locals: LocalCodes) -> bool
    ensures { result ≡ error10 locals.entry.list.now rec.now }
{
    if record::is_type(rec, LocalCode) {
        !is_local_code(rec, locals)
    } else {
        false
    }
}

// Error 11 (C): the case ID.
#[tactic(auto, unfolding(crate::specs::Errors::error11))]
pub fn has_11(rec: &[u8; 245]) -> bool
    ensures { result ≡ error11 rec.now }
{
    if record::is_type(rec, CaseId) {
        fields::is_blank(fields::field(rec, chart_a1::CASE_ID))
    } else {
        false
    }
}

// Error 12 (T): the transfer state.
#[tactic(auto, unfolding(crate::specs::Errors::error12))]
pub fn has_12(rec: &[u8; 245]) -> bool
    ensures { result ≡ error12 rec.now }
{
    if record::is_type(rec, Transfer) {
        !states::is_state(fields::field(rec, chart_a1::TRANSFER_STATE))
    } else {
        false
    }
}

// Error 13 (S): the process year.
#[tactic(auto, unfolding(crate::specs::Errors::error13))]
pub fn has_13(rec: &[u8; 245], year: u64) -> bool
    ensures { result ≡ error13 year rec.now }
{
    if record::is_type(rec, Payment) {
        !process_year::in_window(year, fields::field(rec, chart_a1::PROCESS_YEAR))
    } else {
        false
    }
}

// Error 14 for Z: an address that is not whole.
#[tactic(auto, unfolding(crate::specs::Errors::wrong_address))]
fn wrong_address(rec: &[u8; 245]) -> bool
    ensures { result ≡ wrong_address rec.now }
{
    let line_1 = fields::is_blank(fields::field(rec, chart_a1::LINE_1));
    let line_2 = fields::is_blank(fields::field(rec, chart_a1::LINE_2));
    let city = fields::is_blank(fields::field(rec, chart_a1::CITY));
    let state = states::is_state(fields::field(rec, chart_a1::ADDRESS_STATE));
    let zip = zip::is_zip(fields::field(rec, chart_a1::ZIP));
    (line_1 & line_2) | city | !state | !zip
}

// Error 14 for A: a state or ZIP that is not blank and is wrong.
#[tactic(auto, unfolding(crate::specs::Errors::wrong_part))]
fn wrong_part(rec: &[u8; 245]) -> bool
    ensures { result ≡ wrong_part rec.now }
{
    let state = fields::field(rec, chart_a1::ADDRESS_STATE);
    let zip = fields::field(rec, chart_a1::ZIP);
    (!fields::is_blank(state) & !states::is_state(state))
        | (!fields::is_blank(zip) & !zip::is_zip(zip))
}

// Error 14 of a Z.
fn has_14_in_z(rec: &[u8; 245]) -> bool
    ensures { result ≡ (is_type Characters.Z rec.now && wrong_address rec.now) }
{
    if record::is_type(rec, Address) {
        wrong_address(rec)
    } else {
        false
    }
}

// Error 14 of an A.
fn has_14_in_a(rec: &[u8; 245]) -> bool
    ensures { result ≡ (is_type Characters.A rec.now && wrong_part rec.now) }
{
    if record::is_type(rec, Add) {
        wrong_part(rec)
    } else {
        false
    }
}

// Error 14 (Z, A): the address.
#[tactic(auto, unfolding(crate::specs::Errors::error14))]
pub fn has_14(rec: &[u8; 245]) -> bool
    ensures { result ≡ error14 rec.now }
{
    has_14_in_z(rec) | has_14_in_a(rec)
}

// Error 15 (A): the date issued.
#[tactic(auto, unfolding(crate::specs::Errors::error15))]
pub fn has_15(rec: &[u8; 245]) -> bool
    ensures { result ≡ error15 rec.now }
{
    if record::is_type(rec, Add) {
        let date = fields::field(rec, chart_a1::DATE_ISSUED);
        !(fields::is_blank(date) | calendar::is_date(date))
    } else {
        false
    }
}

// Whether an exclusion field has a word that is none of the eight.
fn has_wrong_word(rec: &[u8; 245]) -> bool
    ensures { result ≡ is_none (exclusions_of (columns 188 227 rec.now)) }
{
    exclusions::read_exclusions(fields::field(rec, chart_a1::EXCLUSIONS)).is_none()
}

// Error 16 (A, R): the exclusion words.
#[tactic(auto, unfolding(crate::specs::Errors::error16))]
pub fn has_16(rec: &[u8; 245]) -> bool
    ensures { result ≡ error16 rec.now }
{
    if record::is_type(rec, Add) | record::is_type(rec, Exclude) {
        has_wrong_word(rec)
    } else {
        false
    }
}

// Whether there is a row with another name in its first four columns.
#[tactic(auto, unfolding(crate::specs::Errors::is_other_name))]
fn is_other_name(rec: &[u8; 245], row: Option<&[u8; 200]>) -> bool
    ensures { result ≡ is_other_name (row_in row.entry) rec.now }
{
    match row {
        Some(row) => !fields::same(
            fields::field(rec, chart_a1::NAME_FRONT),
            fields::field(row, row::NAME_FRONT),
        ),
        None => false,
    }
}

// Error 17 (all but A, B): the name is not the stored one, and not `given` by a B record of the key.
#[tactic(auto, unfolding(crate::specs::Errors::error17))]
pub fn has_17(rec: &[u8; 245], row: Option<&[u8; 200]>, given: bool) -> bool
    ensures { UnderNames given rec.now (λ names. result ≡ error17 names (row_in row.entry) rec.now) }
{
    let other = is_other_name(rec, row);
    !(record::is_type(rec, Add) | record::is_type(rec, Rename)) & (other & !given)
}

// Error 18: the filler, columns 228–244, as eight, eight and one.
pub fn has_18(rec: &[u8; 245]) -> bool
    ensures { result ≡ error18 rec.now }
{
    let front = words::are_eight_spaces(rec, 227);
    let back = words::are_eight_spaces(rec, 235);
    !(front & (back & (rec[243] == 0x40)))
}
