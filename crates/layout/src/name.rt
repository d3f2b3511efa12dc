// Error 05: the first four columns of a last name.
ghost use Rattle.std.specs.Prelude.{◌≡◌, ◌&&◌, length, get_or};
ghost use Rattle.text.specs.Characters.{is_letter};
ghost use Rattle.layout.specs.Name.{is_name_byte, is_name, has_letter};

use text::{characters, fields};

// Whether a byte is a letter or a hyphen.
pub fn is_name_byte(b: u8) -> bool
    ensures { result ≡ is_name_byte b }
{
    characters::is_letter(b) | (b == 0x60)
}

// Whether four bytes are letters, as those of most names are.
fn are_four_letters(s: &[u8]) -> bool
    requires { length s.now ≡ 4 }
    ensures { result ≡ (is_letter (get_or s.now 0 0) && is_letter (get_or s.now 1 0)
        && is_letter (get_or s.now 2 0) && is_letter (get_or s.now 3 0)) }
{
    let a = characters::is_letter(s[0]);
    let b = characters::is_letter(s[1]);
    let c = characters::is_letter(s[2]);
    let d = characters::is_letter(s[3]);
    a & b & c & d
}

// Whether s is one or more letters or hyphens with only spaces behind, byte by byte. Never inlined, so that four letters cost no more.
#[inline(never)]
fn is_name_by_byte(s: &[u8]) -> bool
    ensures { result ≡ is_name s.now }
{
    match s.iter().position(|b| !is_name_byte(*b)) {
        Some(i) => i != 0 && fields::is_blank(&s[i..]),
        None => !s.is_empty(),
    }
}

// The same; four letters are seen at once.
pub fn is_name(s: &[u8]) -> bool
    ensures { result ≡ is_name s.now }
{
    if s.len() != 4 {
        return is_name_by_byte(s);
    }
    are_four_letters(s) || is_name_by_byte(s)
}

// Whether four bytes are a name with a letter.
pub fn is_lettered_name(s: &[u8]) -> bool
    requires { length s.now ≡ 4 }
    ensures { result ≡ (is_name s.now && has_letter s.now) }
{
    are_four_letters(s) || (is_name_by_byte(s) & has_letter(s))
}

// Whether some byte of s is a letter.
pub fn has_letter(s: &[u8]) -> bool
    ensures { result ≡ has_letter s.now }
{
    s.iter().any(|b| characters::is_letter(*b))
}
