// A verdict below an index in one number; keyorder's bits.rt shows the parts.
ghost use Rattle.std.specs.Prelude.{◌≡◌, ◌+◌, ◌*◌, ◌%◌, ◌^◌, ◌<◌};
ghost use Rattle.onecase.specs.Verdict.{four_bytes, meaning};
ghost use Rattle.keywork.specs.Packed.{character_code, character_of, name_number, name_in, Packed, IsVerdictIn};

use keyorder::bits::{HIGH_PLACE, NAMED, WARNINGS, WORKED_PLACE};
use onecase::verdict::{FourBytes, Verdict};

// Five bits for a letter, hyphen or space.
fn character_code(b: u8) -> u64
    ensures { (result ≡ character_code b) × (result < 32) }
{
    let n = b as u64;
    (n / 16 % 4 * 10 + n % 16) % 32
}

// The character that five bits stand for.
fn character_of(n: u64) -> u8
    ensures { result ≡ character_of (n % 32) }
{
    let k = (n % 32) as u8;
    if k % 20 == 0 {
        return 0x40 + k / 10 * 16 + k % 10;
    }
    0xC0 + k / 10 * 16 + k % 10
}

// The four characters as one number.
fn name_number(name: FourBytes) -> u64
    ensures { (result ≡ name_number (four_bytes name)) × (result < 2 ^ 20) }
{
    let a = character_code(name.a);
    let b = character_code(name.b);
    let c = character_code(name.c);
    let d = character_code(name.d);
    a + b * 32 + c * 1024 + d * 32768
}

// The four characters that a number stands for.
fn name_in(n: u64) -> FourBytes
    ensures { four_bytes result ≡ name_in n }
{
    let a = character_of(n);
    let b = character_of(n / 32);
    let c = character_of(n / 1024);
    let d = character_of(n / 32768);
    FourBytes { a, b, c, d }
}

// An index above a set's low part and a high part.
fn joined(i: u64, set: u64, high: u64) -> u64
    requires { (i < 2 ^ 24) × (high < 2 ^ 21) }
    ensures { result ≡ i * 2 ^ 40 + (high * 2 ^ 19 + set % 2 ^ 19) }
{
    i * WORKED_PLACE + (high * HIGH_PLACE + set % HIGH_PLACE)
}

// An index, with a verdict below it.
pub fn with_verdict(i: usize, v: Verdict) -> u64
    requires { i < 2 ^ 24 }
    ensures { Packed result i (meaning v) }
{
    let index = i as u64;
    match v {
        Verdict::Accepted(set) => joined(index, set, set / WARNINGS),
        Verdict::Rejected(set) => joined(index, set, set / WARNINGS),
        Verdict::RejectedWithName(set, name) => joined(index, set, name_number(name)),
    }
}

// The verdict that a number holds.
pub fn verdict_in(number: u64) -> Verdict
    ensures { IsVerdictIn number result }
{
    let set = number % HIGH_PLACE;
    let high = number % WORKED_PLACE / HIGH_PLACE;
    if set / NAMED % 2 == 1 {
        return Verdict::RejectedWithName(set, name_in(high));
    }
    if set != 0 {
        return Verdict::Rejected(set);
    }
    Verdict::Accepted(high * WARNINGS)
}
