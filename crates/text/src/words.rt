// Up to eight bytes as one number, the first the highest, and tests of all eight at once.
ghost use Rattle.std.specs.Prelude.{◌≡◌, List, ℕ, ◌+◌, ◌≤◌, ◌<◌, ◌^◌, length, take, drop};
ghost use Rattle.text.specs.Fields.{is_blank, is_zero, all_digits};
ghost use Rattle.text.specs.ByteNumbers.{bytes_number, AreBytes};

// The N bytes from index i on as a number.
pub fn bytes_number<const N: usize>(a: &[u8], i: usize) -> u64
    requires { (N ≤ 8) × (i + N ≤ length a.now) }
    ensures { (result ≡ bytes_number (take N (drop i a.now))) × (result < 256 ^ N) }
{
    let end = i + N;
    let mut n: u64 = 0;
    for b in &a[i..end] {
        n = n * 256 + (*b as u64);
    }
    n
}

// The four bytes from index i on as a number.
pub fn four_number(a: &[u8], i: usize) -> u64
    requires { i + 4 ≤ length a.now }
    ensures { (result ≡ bytes_number (take 4 (drop i a.now))) × (result < 4294967296) }
{
    bytes_number::<4>(a, i)
}

// The eight bytes from index i on as a number.
pub fn eight_number(a: &[u8], i: usize) -> u64
    requires { i + 8 ≤ length a.now }
    ensures { result ≡ bytes_number (take 8 (drop i a.now)) }
{
    bytes_number::<8>(a, i)
}

// Whether the eight bytes of a number are digits: F in the high half of each, and in the low half no more than 9, so that 6 added to it
// stays below 16.
pub fn are_eight_digits(w: u64) -> bool
    ensures { (s : List ℕ) → length s ≡ 8 → AreBytes s → w ≡ bytes_number s → result ≡ all_digits s }
{
    let high = w & 0xF0F0F0F0F0F0F0F0;
    let low = w & 0x0F0F0F0F0F0F0F0F;
    let carried = (low + 0x0606060606060606) & 0xF0F0F0F0F0F0F0F0;
    (high == 0xF0F0F0F0F0F0F0F0) & (carried == 0)
}

// Whether the eight bytes of a number are the digit zero.
pub fn are_eight_zeros(w: u64) -> bool
    ensures { (s : List ℕ) → length s ≡ 8 → AreBytes s → w ≡ bytes_number s → result ≡ is_zero s }
{
    w == 0xF0F0F0F0F0F0F0F0
}

// Whether the eight bytes from index i on are spaces.
pub fn are_eight_spaces(a: &[u8], i: usize) -> bool
    requires { i + 8 ≤ length a.now }
    ensures { result ≡ is_blank (take 8 (drop i a.now)) }
{
    eight_number(a, i) == 0x4040404040404040
}
