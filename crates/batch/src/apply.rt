// Applying a batch: the refusals in order, then the work on its details, the control record and the counts.
ghost use Rattle.std.specs.Prelude.{◌≡◌, true, ◌+◌, ◌*◌, ◌≤◌, ◌<◌, length};
ghost use Rattle.text.specs.Blocks.{spliced};
ghost use Rattle.rejectfile.specs.Counts.{control_record};
ghost use Rattle.rejectfile.specs.Tally.{counts_in, AtMost};
ghost use Rattle.journal.specs.Space.{journal_space};
ghost use Rattle.layout.specs.Batch.{detail_count};
ghost use Rattle.batch.specs.Call.{call_of};
ghost use Rattle.batch.specs.Refusals.{apply_refusal};
ghost use Rattle.batch.specs.Apply.{result_in, applied_as, IsOutcome};
ghost use Rattle.batch.specs.Journaling.{result_of, RunJournaled};

use crate::{refusals, work};
use answers::refusal::Refusal;
use judging::setting::Setting;
use layout::locals::LocalCodes;
use layout::{chart_a2, records};
use rejectfile::counts;
use rejectfile::verdicts::Progress;
use text::fields;

// The counts of a run that is carried out.
#[derive(Clone, Copy)]
pub struct Applied {
    pub accepted: u64,
    pub rejected: u64,
    pub warned: u64,
    pub neither: u64,
    pub rows: usize,
}

// The result of a run that is carried out, and the journal's length.
#[derive(Clone, Copy)]
pub struct RunResult {
    pub accepted: u64,
    pub rejected: u64,
    pub warned: u64,
    pub neither: u64,
    pub rows: usize,
    pub written: usize,
}

// Writes the control record behind the reject records, and answers the counts, with the journal's length.
fn finish(s: Progress, state: &[u8], rejects: &mut [u8], d: usize, written: usize) -> RunResult
    requires { (length state.now ≡ 2) × (s.rejects * 245 + 245 ≤ length rejects.old) × (AtMost d s.tally) × (d < 9223372036854775807) }
    ensures rejects_after { rejects.new
        ≡ spliced rejects.old (s.rejects * 245) (control_record state.now (counts_in s.tally)) }
    ensures result_value { (result_of result ≡ result_in (counts_in s.tally) s.rows) × (result.written ≡ written) }
{
    let t = s.tally;
    let k = s.rejects;
    let last = counts::control_record(state, t);
    fields::copy_in(rejects, k * 245, &last);
    RunResult {
        accepted: t.tanf_accepted + t.non_tanf_accepted,
        rejected: t.tanf_rejected + t.non_tanf_rejected,
        warned: t.tanf_warned + t.non_tanf_warned,
        neither: t.neither,
        rows: s.rows,
        written,
    }
}

// A batch that no refusal stops, carried out. Where a journal is wanted it is written.
pub fn run(
    m: &mut [u8],
    n: usize,
    batch: &[u8],
    locals: &[u8],
    year: u64,
    verdicts: &mut [u64],
    rejects: &mut [u8],
    journal: &mut [u8],
    wanted: bool,
) -> RunResult
    requires rejects_value { apply_refusal (call_of m.old n batch.now locals.now year verdicts.old rejects.old) ≡ 0 }
    requires batch_in_bounds { wanted ≡ true → journal_space (detail_count batch.now) ≤ length journal.old }
    ensures { RunJournaled
        (call_of m.old n batch.now locals.now year verdicts.old rejects.old)
        wanted journal.old m.new verdicts.new rejects.new result journal.new }
{
    let d = batch.len() / 245 - 1;
    let control = records::record_at(batch, d);
    let state = fields::field(&control, chart_a2::STATE);
    let setting = Setting {
        state,
        year,
        locals: LocalCodes::new(locals),
    };
    let s = work::work(m, n, batch, setting, verdicts, rejects, journal, wanted);
    let p = s.progress;
    finish(p, state, rejects, d, s.written)
}

// Applies a batch to a master with `rows` rows, and answers the counts.
pub fn apply(
    master: &mut [u8],
    rows: usize,
    batch: &[u8],
    locals: &[u8],
    year: u64,
    verdicts: &mut [u64],
    rejects: &mut [u8],
) -> Result<Applied, Refusal>
    ensures { IsOutcome
        (call_of master.old rows batch.now locals.now year verdicts.old rejects.old)
        (applied_as result master.new verdicts.new rejects.new) }
{
    refusals::first_refusal(master, rows, batch, locals, year, verdicts, rejects)?;
    let mut journal = [0u8; 0];
    let r = run(
        master,
        rows,
        batch,
        locals,
        year,
        verdicts,
        rejects,
        &mut journal,
        false,
    );
    Ok(Applied {
        accepted: r.accepted,
        rejected: r.rejected,
        warned: r.warned,
        neither: r.neither,
        rows: r.rows,
    })
}
