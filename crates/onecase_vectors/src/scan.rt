// Places and numbers in a text.
ghost use Rattle.std.specs.Prelude.{◌≤◌, length};

// The first place of a byte from `at` on, or the text's end.
pub fn place(text: &[u8], at: usize, b: u8) -> usize
    requires { at ≤ length text.now }
    ensures { (at ≤ result) × (result ≤ length text.now) }
{
    for i in at..text.len() {
        if text[i] == b {
            return i;
        }
    }
    text.len()
}

// The number with one more digit; other bytes are passed, and so is a digit behind four.
fn longer(n: u64, b: u8) -> u64 {
    match b {
        b'0'..=b'9' => {
            if n < 1000 {
                n * 10 + (b - b'0') as u64
            } else {
                n
            }
        }
        _ => n,
    }
}

// The number that the digits of a text write.
pub fn number(text: &[u8]) -> u64 {
    let mut n = 0;
    for b in text {
        n = longer(n, *b);
    }
    n
}
