// The counts of a run, and the control record of the reject file.
ghost use Rattle.std.specs.Prelude.{◌≡◌, true, ◌+◌, ◌<◌, ◌≤◌, length};
ghost use Rattle.text.specs.Characters;
ghost use Rattle.batchfile.specs.TotalsParts.{count_in};
ghost use Rattle.rejectfile.specs.Counts.{control_record};
ghost use Rattle.rejectfile.specs.Tally.{counts_in, start_tally, CodedAtMost, Counted};

use layout::{chart_02, chart_a1, key};
use text::counting::one_if;
use text::fields;

// The counts so far.
#[derive(Clone, Copy)]
pub struct Tally {
    pub tanf_accepted: u64,
    pub tanf_rejected: u64,
    pub non_tanf_accepted: u64,
    pub non_tanf_rejected: u64,
    pub tanf_warned: u64,
    pub non_tanf_warned: u64,
    pub neither: u64,
}

// The counts before any code is seen: so many of each case type, all accepted, and the rest of n details of neither.
pub fn start_tally(tanf: u64, non_tanf: u64, n: u64) -> Tally
    requires { tanf + non_tanf ≤ n }
    ensures { result ≡ start_tally tanf non_tanf n }
{
    Tally {
        tanf_accepted: tanf,
        tanf_rejected: 0,
        non_tanf_accepted: non_tanf,
        non_tanf_rejected: 0,
        tanf_warned: 0,
        non_tanf_warned: 0,
        neither: n - tanf - non_tanf,
    }
}

// The counts with a detail moved that has codes and stood among the accepted: to the rejected, or it is warned. At most n were before.
fn moved(t: Tally, n: u64, rec: &[u8], accepted: bool) -> Tally
    requires { (length rec.now ≡ 245) × CodedAtMost n t × (n < 18446744073709551615)
        × (count_in Characters.A rec.now ≤ t.tanf_accepted) × (count_in Characters.N rec.now ≤ t.non_tanf_accepted) }
    ensures { Counted rec.now n accepted true t result }
{
    let tanf = rec[chart_a1::CASE_TYPE_AT] == key::TANF;
    let non_tanf = rec[chart_a1::CASE_TYPE_AT] == key::NON_TANF;
    let tanf_out = one_if(tanf & !accepted) as u64;
    let non_tanf_out = one_if(non_tanf & !accepted) as u64;
    let tanf_warned = t.tanf_warned + one_if(tanf & accepted) as u64;
    let non_tanf_warned = t.non_tanf_warned + one_if(non_tanf & accepted) as u64;
    Tally {
        tanf_accepted: t.tanf_accepted - tanf_out,
        tanf_rejected: t.tanf_rejected + tanf_out,
        non_tanf_accepted: t.non_tanf_accepted - non_tanf_out,
        non_tanf_rejected: t.non_tanf_rejected + non_tanf_out,
        tanf_warned,
        non_tanf_warned,
        neither: t.neither,
    }
}

// The counts with a detail's codes seen, of which at most n had some before; without a code it stays among the accepted, and isn't read.
pub fn counted(t: Tally, n: u64, rec: &[u8], accepted: bool, coded: bool) -> Tally
    requires { (length rec.now ≡ 245) × CodedAtMost n t × (n < 18446744073709551615)
        × (count_in Characters.A rec.now ≤ t.tanf_accepted) × (count_in Characters.N rec.now ≤ t.non_tanf_accepted) }
    ensures { Counted rec.now n accepted coded t result }
{
    if coded { moved(t, n, rec, accepted) } else { t }
}

// The control record of Chart 0-2.
pub fn control_record(state: &[u8], t: Tally) -> [u8; 245]
    requires { length state.now ≡ 2 }
    ensures { result ≡ control_record state.now (counts_in t) }
{
    let mut out = [0x40u8; 245];
    fields::put(&mut out, chart_02::STATE, state);
    fields::put(&mut out, chart_02::CONTROL, b"\xC3\xE3\xD3");
    fields::put_number(&mut out, chart_02::TANF_ACCEPTED, t.tanf_accepted);
    fields::put_number(&mut out, chart_02::TANF_REJECTED, t.tanf_rejected);
    fields::put_number(&mut out, chart_02::NON_TANF_ACCEPTED, t.non_tanf_accepted);
    fields::put_number(&mut out, chart_02::NON_TANF_REJECTED, t.non_tanf_rejected);
    fields::put_number(&mut out, chart_02::TANF_WARNING, t.tanf_warned);
    fields::put_number(&mut out, chart_02::NON_TANF_WARNING, t.non_tanf_warned);
    out
}
