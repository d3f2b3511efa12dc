// An amount field of a line: ten digits and a last one, in cents.
ghost use Rattle.std.specs.Prelude.{◌≡◌, length};
ghost use Rattle.collectionfile.specs.Line.{is_last_digit, amount_cents};
ghost use Rattle.collectionfile.specs.Parts.{cents_in};

use crate::cents::Cents;
use text::fields;

// Whether a byte is a last digit: F0–F9 or C0–C9.
fn is_last_digit(b: u8) -> bool
    ensures { result ≡ is_last_digit b }
{
    ((0xF0 <= b) & (b <= 0xF9)) | ((0xC0 <= b) & (b <= 0xC9))
}

// The cents of an amount field of eleven bytes, none if it is bad.
pub fn read_amount(field: &[u8]) -> Option<Cents>
    requires { length field.now ≡ 11 }
    ensures { cents_in result ≡ amount_cents field.now }
{
    let front = &field[0..10];
    if !fields::all_digits(front) {
        return None;
    }
    let last = field[10];
    if !is_last_digit(last) {
        return None;
    }
    let tens = fields::number_of(front);
    Some(Cents(tens * 10 + (last % 16) as u64))
}
