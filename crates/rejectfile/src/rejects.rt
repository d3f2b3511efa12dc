// The verdict's number and the reject record of Chart 0-1.
ghost use Rattle.std.specs.Prelude.{◌≡◌, ◌++◌, ◌+◌, ◌*◌, ◌≤◌, length};
ghost use Rattle.text.specs.Blocks.{blocks, Holds};
ghost use Rattle.onecase.specs.Verdict.{meaning, says_accepted};
ghost use Rattle.rejectfile.specs.Rejects.{four_columns, reject_record, if_any};
ghost use Rattle.rejectfile.specs.Answers.{set_in};

use layout::{chart_01, codes};
use onecase::verdict::Verdict;
use text::fields;

// The set of a verdict.
pub fn set_of(v: Verdict) -> u64
    ensures { result ≡ set_in v }
{
    match v {
        Verdict::Accepted(set) => set,
        Verdict::Rejected(set) => set,
        Verdict::RejectedWithName(set, _) => set,
    }
}

// Whether a verdict is accepted.
pub fn is_accepted(v: Verdict) -> bool
    ensures { result ≡ says_accepted v }
{
    match v {
        Verdict::Accepted(_) => true,
        Verdict::Rejected(_) => false,
        Verdict::RejectedWithName(_, _) => false,
    }
}

// The four stored characters that go with 17, else spaces.
fn name_columns(v: Verdict) -> [u8; 4]
    ensures { result ≡ four_columns (meaning v).name }
{
    match v {
        Verdict::Accepted(_) => [0x40; 4],
        Verdict::Rejected(_) => [0x40; 4],
        Verdict::RejectedWithName(_, name) => [name.a, name.b, name.c, name.d],
    }
}

// A detail's reject record.
pub fn reject_record(rec: &[u8], v: Verdict) -> [u8; 245]
    requires { length rec.now ≡ 245 }
    ensures { result ≡ reject_record rec.now (meaning v) }
{
    let mut out = [0u8; 245];
    fields::copy_in(&mut out, 0, rec);
    let text = codes::codes_text(set_of(v));
    fields::put(&mut out, chart_01::ERROR_CODES, &text);
    let name = name_columns(v);
    fields::put(&mut out, chart_01::STORED_NAME, &name);
    fields::put(&mut out, chart_01::FILLER, b"\x40");
    out
}

// Writes a detail's reject record behind k others, if it has a code, and answers how many there are then.
pub fn put_reject(rejects: &mut [u8], k: usize, rec: &[u8], v: Verdict) -> usize
    requires { (length rec.now ≡ 245) × (k * 245 + 245 ≤ length rejects.old) }
    ensures { (Holds 245 rejects.old rejects.new result
        (blocks 245 k rejects.old ++ if_any (meaning v).codes (reject_record rec.now (meaning v))))
        × (k ≤ result) × (result ≤ k + 1) }
{
    if set_of(v) == 0 {
        return k;
    }
    let out = reject_record(rec, v);
    fields::copy_in(rejects, k * 245, &out);
    k + 1
}
