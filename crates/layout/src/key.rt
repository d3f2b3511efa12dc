// Keys and their soundness.
ghost use Rattle.std.specs.Prelude.{◌≡◌, true, not, ◌&&◌, List, ℕ, ◌/◌, ◌<◌, length, get_or, take, drop};
ghost use Rattle.text.specs.Fields.{columns};
ghost use Rattle.text.specs.ByteNumbers.{AreBytes, bytes_number};
ghost use Rattle.layout.specs.StateCodes.{is_state_code};
ghost use Rattle.layout.specs.Ssn.{wrong_ssn};
ghost use Rattle.layout.specs.Key.{is_case_type, is_sound_key};

use crate::{ssn, states};
use text::fields::Columns;
use text::{fields, words};

// The columns of a key.
pub const STATE: Columns = Columns { first: 1, last: 2 };

pub const SSN: Columns = Columns { first: 3, last: 11 };

pub const CASE_TYPE: Columns = Columns {
    first: 12,
    last: 12,
};

// The case types.
pub const TANF: u8 = 0xC1;

pub const NON_TANF: u8 = 0xD5;

// The number of a key's state, given the number of the key's first eight bytes.
pub fn state_in(front: u64) -> u16
    ensures { result ≡ front / 0x1000000000000 }
{
    (front / 0x1000000000000) as u16
}

// Whether a byte is a case type: A (TANF) or N (Non-TANF).
pub fn is_case_type(b: u8) -> bool
    ensures { result ≡ is_case_type b }
{
    b == TANF || b == NON_TANF
}

// Whether a key is sound behind its state, no error 02 and a case type: the key as the numbers of its first eight bytes and of its last
// four.
fn is_sound_behind_in(front: u64, back: u64) -> bool
    requires { back < 4294967296 }
    ensures { (key : List ℕ) → length key ≡ 12 → AreBytes key
        → front ≡ bytes_number (take 8 key) → back ≡ bytes_number (take 4 (drop 8 key))
        → result ≡ (not (wrong_ssn (columns 3 11 key)) && is_case_type (get_or key 11 0)) }
{
    let eight = front % 0x1000000000000 * 0x10000 + back / 0x10000;
    let last = back / 0x100 % 0x100;
    if ssn::wrong_ssn_in(eight, last) {
        return false;
    }
    is_case_type((back % 0x100) as u8)
}

// The same of a key of twelve bytes.
pub fn is_sound_behind(key: &[u8]) -> bool
    requires { length key.now ≡ 12 }
    ensures { result ≡ (not (wrong_ssn (columns 3 11 key.now)) && is_case_type (get_or key.now 11 0)) }
{
    is_sound_behind_in(words::eight_number(key, 0), words::four_number(key, 8))
}

// Whether a key is sound: twelve bytes, a state of the table, no error 02, a case type.
pub fn is_sound_key(key: &[u8]) -> bool
    ensures { result ≡ is_sound_key key.now }
{
    if key.len() != 12 {
        return false;
    }
    states::is_state(fields::field(key, STATE)) & is_sound_behind(key)
}

// Whether a key is sound, given as these two numbers; a state of the table whose number is known already is not looked up again.
pub fn is_sound_key_in(known: u16, front: u64, back: u64) -> bool
    requires { (is_state_code known ≡ true) × (back < 4294967296) }
    ensures { (key : List ℕ) → length key ≡ 12 → AreBytes key
        → front ≡ bytes_number (take 8 key) → back ≡ bytes_number (take 4 (drop 8 key))
        → result ≡ is_sound_key key }
{
    if states::is_code_after(known, state_in(front)) {
        is_sound_behind_in(front, back)
    } else {
        false
    }
}
