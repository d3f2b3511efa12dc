// The year of year.txt.
ghost use Rattle.std.specs.Prelude.{◌≡◌, ◌∷◌, [], ◌-◌, ◌<◌};
ghost use Rattle.text.specs.Fields.{every};
ghost use Rattle.apply_files.specs.Year.{is_ascii_digit, ascii_number_onto, year_in, year_of};

use text::characters::is_within;

// What an ASCII digit stands for.
fn digit(b: u8) -> u64
    ensures { (result ≡ b - 0x30) × (result < 256) }
{
    if b < 0x30 {
        return 0;
    }
    (b - 0x30) as u64
}

// Whether four bytes are ASCII digits.
fn are_digits(a: u8, b: u8, c: u8, d: u8) -> bool
    ensures { result ≡ every is_ascii_digit (a ∷ b ∷ c ∷ d ∷ []) }
{
    let low = is_within(c, 0x30, 0x39) & is_within(d, 0x30, 0x39);
    is_within(a, 0x30, 0x39) & (is_within(b, 0x30, 0x39) & low)
}

// The number that four ASCII digits write.
fn number_of(a: u8, b: u8, c: u8, d: u8) -> u64
    ensures { result ≡ ascii_number_onto 0 (a ∷ b ∷ c ∷ d ∷ []) }
{
    ((digit(a) * 10 + digit(b)) * 10 + digit(c)) * 10 + digit(d)
}

// The year in the bytes of year.txt, where these are four ASCII digits.
pub fn year_of(text: &[u8]) -> Option<u64>
    ensures { year_of result ≡ year_in text.now }
{
    if text.len() != 4 {
        return None;
    }
    let a = text[0];
    let b = text[1];
    let c = text[2];
    let d = text[3];
    if are_digits(a, b, c, d) {
        Some(number_of(a, b, c, d))
    } else {
        None
    }
}
