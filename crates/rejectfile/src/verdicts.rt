// Writes the verdict list, the reject file and the counts from numbers that hold the verdicts.
ghost use Rattle.std.specs.Prelude.{◌≡◌, List, ◌+◌, ◌*◌, ◌≤◌, ◌<◌, length};
ghost use Rattle.text.specs.Blocks.{blocks};
ghost use Rattle.onecase.specs.Verdict.{Judgement};
ghost use Rattle.text.specs.Characters;
ghost use Rattle.batchfile.specs.Totals.{count_of};
ghost use Rattle.batchfile.specs.TotalsParts.{count_in};
ghost use Rattle.rejectfile.specs.Tally.{AtMost, CodedAtMost};
ghost use Rattle.rejectfile.specs.Written.{VerdictsWritten};
ghost use Rattle.keywork.specs.Packed.{HoldsVerdicts};
ghost use Rattle.rejectfile.specs.Recorded.{Recorded};

use crate::counts::Tally;
use crate::{counts, rejects};
use keywork::packed;
use layout::records::RECORD_WIDTH;
use onecase::verdict::Verdict;

// How far the work has come: rows, reject records and counts.
#[derive(Clone, Copy)]
pub struct Progress {
    pub rows: usize,
    pub rejects: usize,
    pub tally: Tally,
}

// Writes a verdict: its number, its reject record if it has a code, and the counts.
pub fn record_verdict(
    s: Progress,
    i: usize,
    rec: &[u8],
    verdict: Verdict,
    verdicts: &mut [u64],
    rejects: &mut [u8],
) -> Progress
    requires rec_len { (length rec.now ≡ 245) × (i < length verdicts.old) × (s.rejects * 245 + 245 ≤ length rejects.old) }
    requires coded_at_most { CodedAtMost i s.tally × (count_in Characters.A rec.now ≤ s.tally.tanf_accepted)
        × (count_in Characters.N rec.now ≤ s.tally.non_tanf_accepted) }
    ensures { Recorded rec.now verdict s i verdicts.old rejects.old result verdicts.new rejects.new }
{
    let set = rejects::set_of(verdict);
    let accepted = rejects::is_accepted(verdict);
    let k = s.rejects;
    let t = s.tally;
    let tally = counts::counted(t, i as u64, rec, accepted, set != 0);
    verdicts[i] = set;
    let count = rejects::put_reject(rejects, k, rec, verdict);
    Progress {
        rows: s.rows,
        rejects: count,
        tally,
    }
}

// Each detail's verdict in batch order, from the numbers that hold them. All are counted as accepted at first, by how many there are of each
// case type, and those with codes are moved: no other record is read.
pub fn write_verdicts(
    rows: usize,
    batch: &[u8],
    d: usize,
    tanf: u64,
    non_tanf: u64,
    numbers: &mut [u64],
    rejects: &mut [u8],
) -> Progress
    requires d_in_bounds { (d * 245 ≤ length batch.now) × (d ≤ length numbers.old) × ((d + 1) * 245 ≤ length rejects.old) }
    requires tanf_value { (tanf ≡ count_of Characters.A (blocks 245 d batch.now)) × (non_tanf ≡ count_of Characters.N (blocks 245 d batch.now)) }
    ensures { (result.rows ≡ rows) × (result.rejects ≤ d) × AtMost d result.tally
        × ((verdicts : List Judgement) → HoldsVerdicts d numbers.old verdicts
        → VerdictsWritten (blocks 245 d batch.now) verdicts numbers.old rejects.old
        numbers.new rejects.new result.rejects result.tally) }
{
    let tally = counts::start_tally(tanf, non_tanf, d as u64);
    let mut s = Progress {
        rows,
        rejects: 0,
        tally,
    };
    for (i, rec) in batch[..d * RECORD_WIDTH]
        .chunks_exact(RECORD_WIDTH)
        .enumerate()
    {
        let v = packed::verdict_in(numbers[i]);
        s = record_verdict(s, i, rec, v, numbers, rejects);
    }
    s
}
