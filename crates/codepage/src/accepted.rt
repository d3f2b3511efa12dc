// Whether every byte of a file has a counterpart. The tests are by ranges and the loops never end early: they run over
// several bytes at a time, as look-ups in a table can't.
ghost use Rattle.std.specs.Prelude.{◌≡◌};
ghost use Rattle.codepage.specs.CodePage.{ebcdic_of, ascii_of};
ghost use Rattle.codepage.specs.Accepted.{has_counterpart, every_has_counterpart};

// Whether an ASCII byte has a counterpart: space, #, & to ), comma to 9, A to Z.
fn has_ebcdic(b: u8) -> bool
    ensures { result ≡ has_counterpart (ebcdic_of b) }
{
    (b == 0x20)
        | (b == 0x23)
        | ((0x26 <= b) & (b <= 0x29))
        | ((0x2C <= b) & (b <= 0x39))
        | ((0x41 <= b) & (b <= 0x5A))
}

// Whether an EBCDIC byte has a counterpart: space and the nine signs, then A to I, J to R, S to Z and 0 to 9.
fn has_ascii(b: u8) -> bool
    ensures { result ≡ has_counterpart (ascii_of b) }
{
    (b == 0x40)
        | (b == 0x4B)
        | (b == 0x4D)
        | (b == 0x50)
        | (b == 0x5D)
        | ((0x60 <= b) & (b <= 0x61))
        | (b == 0x6B)
        | (b == 0x7B)
        | (b == 0x7D)
        | ((0xC1 <= b) & (b <= 0xC9))
        | ((0xD1 <= b) & (b <= 0xD9))
        | ((0xE2 <= b) & (b <= 0xE9))
        | ((0xF0 <= b) & (b <= 0xF9))
}

// Whether every byte of an ASCII file has a counterpart.
pub fn all_have_ebcdic(input: &[u8]) -> bool
    ensures { result ≡ every_has_counterpart ebcdic_of input.now }
{
    let mut ok = true;
    for b in input {
        ok &= has_ebcdic(*b);
    }
    ok
}

// Whether every byte of an EBCDIC file has a counterpart.
pub fn all_have_ascii(input: &[u8]) -> bool
    ensures { result ≡ every_has_counterpart ascii_of input.now }
{
    let mut ok = true;
    for b in input {
        ok &= has_ascii(*b);
    }
    ok
}
