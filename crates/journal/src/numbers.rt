// Numbers in groups of seven bits, low group first, the high bit set on all but the last, in their shortest form.
ghost use Rattle.std.specs.Prelude.{◌≡◌, ◌+◌, ◌≤◌, length};
ghost use Rattle.text.specs.Blocks.{spliced};
ghost use Rattle.journal.specs.Numbers.{number_bytes};
ghost use Rattle.journal.specs.Reading.{IsNumber};

// A number that was read, and the index behind it.
#[derive(Clone, Copy)]
pub struct Number {
    pub value: usize,
    pub next: usize,
}

// Writes a number from index `at` on, and answers the index behind it.
pub fn put_number(out: &mut [u8], at: usize, n: usize) -> usize
    requires { at + length (number_bytes n) ≤ length out.old }
    ensures { (result ≡ at + length (number_bytes n)) × (out.new ≡ spliced out.old at (number_bytes n)) }
{
    let mut left = n;
    let mut i = at;
    while 128 <= left {
        out[i] = 128 + (left % 128) as u8;
        left = left / 128;
        i += 1;
    }
    out[i] = left as u8;
    i + 1
}

// The number from index `at` on, if one stands there in its shortest form and has at most four groups.
pub fn number_at(s: &[u8], at: usize) -> Option<Number>
    requires { at ≤ length s.now }
    ensures { IsNumber at s.now result }
{
    let mut n: usize = 0;
    let mut scale: usize = 1;
    for i in at..s.len() {
        if 268435456 <= scale {
            return None;
        }
        let b = s[i] as usize;
        if (b == 0) & (1 < scale) {
            return None;
        }
        if b < 128 {
            return Some(Number {
                value: n + b * scale,
                next: i + 1,
            });
        }
        n += (b - 128) * scale;
        scale = scale * 128;
    }
    None
}
