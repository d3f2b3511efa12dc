// EBCDIC characters.
ghost use Rattle.std.specs.Prelude.{◌≡◌};
ghost use Rattle.text.specs.Characters.{within, is_letter, is_digit};

pub const SPACE: u8 = 0x40;

pub const HYPHEN: u8 = 0x60;

pub const COMMA: u8 = 0x6B;

pub const ZERO: u8 = 0xF0;

pub const NINE: u8 = 0xF9;

// Whether a byte is from low to high.
pub fn is_within(b: u8, low: u8, high: u8) -> bool
    ensures { result ≡ within low high b }
{
    (low <= b) & (b <= high)
}

// Whether a byte is a letter; there are gaps between I and J and between R and S.
pub fn is_letter(b: u8) -> bool
    ensures { result ≡ is_letter b }
{
    is_within(b, 0xC1, 0xC9) | is_within(b, 0xD1, 0xD9) | is_within(b, 0xE2, 0xE9)
}

// Whether a byte is a digit.
pub fn is_digit(b: u8) -> bool
    ensures { result ≡ is_digit b }
{
    is_within(b, 0xF0, 0xF9)
}
