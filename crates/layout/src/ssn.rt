// Error 02: the SSN.
ghost use Rattle.std.specs.Prelude.{◌≡◌, true, ◌&&◌, ◌||◌, List, ℕ, eqb, ltb, length, get_or, take};
ghost use Rattle.text.specs.Fields.{are_digits};
ghost use Rattle.text.specs.ByteNumbers.{AreBytes, bytes_number};
ghost use Rattle.layout.specs.Ssn.{area, group, serial, wrong_ssn};

use text::words;

// Whether nine digits, given as the number of the first eight and the last, are below area 900 with area 000 or 666, group 00 or
// serial 0000. Area, group and serial are compared as they are written, zeros being F0.
fn is_unissued(eight: u64, last: u64) -> bool
    ensures { (s : List ℕ) → are_digits 9 s ≡ true → eight ≡ bytes_number (take 8 s) → last ≡ get_or s 8 0
        → result ≡ (ltb (area s) 900 && (eqb (area s) 0 || eqb (area s) 666 || eqb (group s) 0 || eqb (serial s) 0)) }
{
    let area = eight / 0x10000000000;
    let group = eight / 0x1000000 % 0x10000;
    let serial = eight % 0x1000000;
    let front = (area == 0xF0F0F0) | (area == 0xF6F6F6) | (group == 0xF0F0);
    (area < 0xF90000) & (front | ((serial == 0xF0F0F0) & (last == 0xF0)))
}

// Whether error 02 holds of an SSN, given as the number of its first eight bytes and its last byte.
pub fn wrong_ssn_in(eight: u64, last: u64) -> bool
    ensures { (s : List ℕ) → length s ≡ 9 → AreBytes s → eight ≡ bytes_number (take 8 s) → last ≡ get_or s 8 0
        → result ≡ wrong_ssn s }
{
    if words::are_eight_digits(eight) & (0xF0 <= last) & (last <= 0xF9) {
        is_unissued(eight, last)
    } else {
        true
    }
}

// Whether error 02 holds of the nine columns of an SSN.
pub fn wrong_ssn(s: &[u8]) -> bool
    ensures { result ≡ wrong_ssn s.now }
{
    if s.len() != 9 {
        return true;
    }
    wrong_ssn_in(words::eight_number(s, 0), s[8] as u64)
}
