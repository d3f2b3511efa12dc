// Byte order: how two byte strings of one length stand, and whether the keys of blocks rise.
ghost use Rattle.std.specs.Prelude.{◌≡◌, List, map, ℕ, ◌*◌, ◌≤◌, length, take, drop};
ghost use Rattle.text.specs.ByteNumbers.{AreBytes, bytes_number};
ghost use Rattle.text.specs.Blocks.{blocks};
ghost use Rattle.text.specs.ByteOrder.{order_in, order_of, is_less, rising};

use crate::words;
use std::cmp::Ordering;

// The byte order of two byte strings of one length. The library's order of slices takes longer on strings as short as keys.
pub fn order_of(a: &[u8], b: &[u8]) -> Ordering
    requires { length a.now ≡ length b.now }
    ensures { order_in result ≡ order_of a.now b.now }
{
    for (x, y) in a.iter().zip(b) {
        if x != y {
            return x.cmp(y);
        }
    }
    Ordering::Equal
}

// Whether twelve bytes are below twelve others, both given as the numbers of the first eight and of the last four.
pub fn is_twelve_below_in(front1: u64, back1: u64, front2: u64, back2: u64) -> bool
    ensures { (a b : List ℕ) → length a ≡ 12 → length b ≡ 12 → AreBytes a → AreBytes b
        → front1 ≡ bytes_number (take 8 a) → back1 ≡ bytes_number (take 4 (drop 8 a))
        → front2 ≡ bytes_number (take 8 b) → back2 ≡ bytes_number (take 4 (drop 8 b)) → result ≡ is_less (order_of a b) }
{
    (front1 < front2) | ((front1 == front2) & (back1 < back2))
}

// Whether twelve bytes are below twelve others.
fn is_twelve_below(a: &[u8], b: &[u8]) -> bool
    requires { (length a.now ≡ 12) × (length b.now ≡ 12) }
    ensures { result ≡ is_less (order_of a.now b.now) }
{
    let front1 = words::eight_number(a, 0);
    let front2 = words::eight_number(b, 0);
    is_twelve_below_in(
        front1,
        words::four_number(a, 8),
        front2,
        words::four_number(b, 8),
    )
}

// Whether a byte string is below another of its length.
pub fn is_below(a: &[u8], b: &[u8]) -> bool
    requires { length a.now ≡ length b.now }
    ensures { result ≡ is_less (order_of a.now b.now) }
{
    if a.len() == 12 {
        return is_twelve_below(a, b);
    }
    order_of(a, b).is_lt()
}

// Whether the keys of the first n blocks of some width rise strictly; a key is a block's first bytes.
pub fn is_rising(m: &[u8], n: usize, width: usize, key: usize) -> bool
    requires { (n * width ≤ length m.now) × (key ≤ width) }
    ensures { result ≡ rising (map (take key) (blocks width n m.now)) }
{
    for i in 1..n {
        let before = (i - 1) * width;
        let at = i * width;
        if !is_below(&m[before..before + key], &m[at..at + key]) {
            return false;
        }
    }
    true
}
