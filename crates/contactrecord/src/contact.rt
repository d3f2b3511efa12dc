// The rules of a contact record, each in turn, and whether a record is faulty.
ghost use Rattle.std.specs.Prelude.{◌≡◌, ◌<◌, length};
ghost use Rattle.contactrecord.specs.Contact.{is_contact_key, is_telephone, is_extension, are_telephones, is_agency_name, names_irs_or_fms, has_irs_or_fms, has_address, is_faulty};

use crate::{chart_a3, wording};
use layout::states;
use text::fields::Columns;
use text::{characters, fields};

// The digits of a telephone number.
const AREA: Columns = Columns { first: 2, last: 4 };

const EXCHANGE: Columns = Columns { first: 7, last: 9 };

const LINE: Columns = Columns {
    first: 11,
    last: 14,
};

// Whether the state is in the state table and the code three digits.
pub fn is_contact_key(rec: &[u8]) -> bool
    requires { length rec.now ≡ 220 }
    ensures { result ≡ is_contact_key rec.now }
{
    states::is_state(fields::field(rec, chart_a3::STATE))
        & fields::are_digits(fields::field(rec, chart_a3::CODE), 3)
}

// Whether s has the form (301) 555-1212.
fn is_telephone(s: &[u8]) -> bool
    ensures { result ≡ is_telephone s.now }
{
    if s.len() != 14 {
        return false;
    }
    let area = fields::all_digits(fields::field(s, AREA));
    let exchange = fields::all_digits(fields::field(s, EXCHANGE));
    let line = fields::all_digits(fields::field(s, LINE));
    (s[0] == 0x4D)
        & (area & ((s[4] == 0x5D) & ((s[5] == 0x40) & (exchange & ((s[9] == 0x60) & line)))))
}

// Whether s is digits with only spaces behind; no digit at all is blank.
fn is_extension(s: &[u8]) -> bool
    ensures { result ≡ is_extension s.now }
{
    match s.iter().position(|b| !characters::is_digit(*b)) {
        Some(digits) => fields::is_blank(&s[digits..]),
        None => true,
    }
}

// Whether the telephone numbers and extensions are right.
fn are_telephones(rec: &[u8]) -> bool
    requires { length rec.now ≡ 220 }
    ensures { result ≡ are_telephones rec.now }
{
    let first = is_telephone(fields::field(rec, chart_a3::TELEPHONE_1));
    let first_extension = is_extension(fields::field(rec, chart_a3::EXTENSION_1));
    let blank = fields::is_blank(fields::field(rec, chart_a3::TELEPHONE_2));
    let second = is_telephone(fields::field(rec, chart_a3::TELEPHONE_2));
    let second_extension = is_extension(fields::field(rec, chart_a3::EXTENSION_2));
    first & (first_extension & ((blank | second) & second_extension))
}

// Whether the agency name contains CHILD SUPPORT or FAMILY SUPPORT.
fn is_agency_name(name: &[u8]) -> bool
    ensures { result ≡ is_agency_name name.now }
{
    let child = wording::holds_text(
        name,
        b"\xC3\xC8\xC9\xD3\xC4\x40\xE2\xE4\xD7\xD7\xD6\xD9\xE3",
    );
    let family = wording::holds_text(
        name,
        b"\xC6\xC1\xD4\xC9\xD3\xE8\x40\xE2\xE4\xD7\xD7\xD6\xD9\xE3",
    );
    child | family
}

// Whether IRS or FMS is a whole run of letters in a field.
fn names_irs_or_fms(s: &[u8]) -> bool
    ensures { result ≡ names_irs_or_fms s.now }
{
    wording::has_run(s, b"\xC9\xD9\xE2") | wording::has_run(s, b"\xC6\xD4\xE2")
}

// Whether the name or an address line has one, each field read by itself.
fn fields_name_irs_or_fms(rec: &[u8]) -> bool
    requires { length rec.now ≡ 220 }
    ensures { result ≡ has_irs_or_fms rec.now }
{
    names_irs_or_fms(fields::field(rec, chart_a3::AGENCY_NAME))
        | (names_irs_or_fms(fields::field(rec, chart_a3::LINE_1))
            | (names_irs_or_fms(fields::field(rec, chart_a3::LINE_2))
                | (names_irs_or_fms(fields::field(rec, chart_a3::LINE_3))
                    | names_irs_or_fms(fields::field(rec, chart_a3::LINE_4)))))
}

// Columns that have the name and all lines in them. A word of three bytes can stand at 192 places there, six times as many as are
// looked at at a time.
const SEARCHED: Columns = Columns {
    first: 27,
    last: 220,
};

// The same. Where neither word's bytes stand in those columns, which is found in one pass, no field has one.
fn has_irs_or_fms(rec: &[u8]) -> bool
    requires { length rec.now ≡ 220 }
    ensures { result ≡ has_irs_or_fms rec.now }
{
    let all = fields::field(rec, SEARCHED);
    let irs = wording::holds_three(all, b"\xC9\xD9\xE2");
    let fms = wording::holds_three(all, b"\xC6\xD4\xE2");
    if !(irs | fms) {
        return false;
    }
    fields_name_irs_or_fms(rec)
}

// Whether at least one of lines 1 to 3, and line 4, aren't blank.
fn has_address(rec: &[u8]) -> bool
    requires { length rec.now ≡ 220 }
    ensures { result ≡ has_address rec.now }
{
    let one = fields::is_blank(fields::field(rec, chart_a3::LINE_1));
    let two = fields::is_blank(fields::field(rec, chart_a3::LINE_2));
    let three = fields::is_blank(fields::field(rec, chart_a3::LINE_3));
    let four = fields::is_blank(fields::field(rec, chart_a3::LINE_4));
    !(one & (two & three)) & !four
}

// Whether a record is faulty: a rule isn't kept.
pub fn is_faulty(rec: &[u8]) -> bool
    requires { length rec.now ≡ 220 }
    ensures { result ≡ is_faulty rec.now }
{
    let agency = is_agency_name(fields::field(rec, chart_a3::AGENCY_NAME));
    let filler = fields::is_blank(fields::field(rec, chart_a3::FILLER));
    !(is_contact_key(rec)
        & (are_telephones(rec) & (agency & (!has_irs_or_fms(rec) & (has_address(rec) & filler)))))
}
