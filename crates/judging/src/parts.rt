// The parts in which a record's errors are judged, and the set of each, as a number: the sum of 2 to the power of each code that holds.
ghost use Rattle.std.specs.Prelude.{◌≡◌, ◌≤◌, ◌<◌, ◌^◌};
ghost use Rattle.layout.specs.Codes.{number_of_codes};
ghost use Rattle.judging.specs.Errors.{code};
ghost use Rattle.judging.specs.Parts.{IsFirst, first_codes, codes06to08, codes10to13, codes14to16};

use crate::errors;
use layout::locals::LocalCodes;

// Errors 01 to 05, which are judged first: those of the key, the type and the name.
#[derive(Clone, Copy)]
pub struct FirstErrors {
    pub state: bool,
    pub ssn: bool,
    pub kind: bool,
    pub case_type: bool,
    pub name: bool,
}

// The number of one code where it holds, else 0.
pub fn flag(holds: bool, number: u32) -> u64
    requires { number < 64 }
    ensures { (result ≡ number_of_codes (code number holds)) × (result ≤ 2 ^ number) }
{
    if holds { 1u64 << number } else { 0 }
}

// Errors 01 to 05.
pub fn judge_first(rec: &[u8; 245], state: &[u8]) -> FirstErrors
    ensures { IsFirst state.now rec.now result }
{
    FirstErrors {
        state: errors::has_01(rec, state),
        ssn: errors::has_02(rec),
        kind: errors::has_03(rec),
        case_type: errors::has_04(rec),
        name: errors::has_05(rec),
    }
}

// The set of errors 01 to 05.
pub fn set_first(f: FirstErrors) -> u64
    ensures { (result ≡ number_of_codes (first_codes f)) × (result ≤ 62) }
{
    flag(f.state, 1)
        + (flag(f.ssn, 2) + (flag(f.kind, 3) + (flag(f.case_type, 4) + flag(f.name, 5))))
}

// The set of errors 06 to 08.
pub fn set_06_to_08(rec: &[u8; 245], known: bool) -> u64
    ensures { (result ≡ number_of_codes (codes06to08 known rec.now)) × (result ≤ 448) }
{
    flag(known & errors::has_06(rec), 6)
        + (flag(known & errors::has_07(rec), 7) + flag(known & errors::has_08(rec), 8))
}

// The set of errors 10 to 13.
pub fn set_10_to_13(rec: &[u8; 245], year: u64, locals: LocalCodes, known: bool) -> u64
    ensures { (result ≡ number_of_codes (codes10to13 known year locals.entry.list.now rec.now)) × (result ≤ 15360) }
{
    flag(known & errors::has_10(rec, locals), 10)
        + (flag(known & errors::has_11(rec), 11)
            + (flag(known & errors::has_12(rec), 12) + flag(known & errors::has_13(rec, year), 13)))
}

// The set of errors 14 to 16.
pub fn set_14_to_16(rec: &[u8; 245], known: bool) -> u64
    ensures { (result ≡ number_of_codes (codes14to16 known rec.now)) × (result ≤ 114688) }
{
    flag(known & errors::has_14(rec), 14)
        + (flag(known & errors::has_15(rec), 15) + flag(known & errors::has_16(rec), 16))
}
