// The verdict on a record.
ghost use Rattle.std.specs.Prelude.{◌≡◌, length};
ghost use Rattle.text.specs.Fields.{columns};
ghost use Rattle.onecase.specs.Verdict.{four_bytes};

// The four stored characters that go with error 17.
#[derive(Clone, Copy)]
pub struct FourBytes {
    pub a: u8,
    pub b: u8,
    pub c: u8,
    pub d: u8,
}

// A verdict with its set of codes: 2 to the power of each code, added up.
#[derive(Clone, Copy)]
pub enum Verdict {
    // No error; the set has the warnings.
    Accepted(u64),
    // Errors, without 17.
    Rejected(u64),
    // Errors with 17, and the stored name.
    RejectedWithName(u64, FourBytes),
}

// The first four characters of a row's last name.
pub fn stored_name(row: &[u8]) -> FourBytes
    requires { length row.now ≡ 200 }
    ensures { four_bytes result ≡ columns 31 34 row.now }
{
    FourBytes {
        a: row[30],
        b: row[31],
        c: row[32],
        d: row[33],
    }
}
