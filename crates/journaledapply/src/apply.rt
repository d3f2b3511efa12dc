// Applying a batch with a journal: the refusals of `apply`, then 25, then the run that writes the journal.
ghost use Rattle.std.specs.Prelude.{◌≡◌, ◌/◌, ◌≤◌, ◌^◌, length};
ghost use Rattle.layout.specs.Batch.{detail_count};
ghost use Rattle.batch.specs.Call.{call_of};
ghost use Rattle.journaledapply.specs.Journaled.{refusal25, with_journal, journaled_as, IsJournaled};

use answers::refusal::Refusal;
use batch::apply::RunResult;
use batch::{apply, refusals};

// Refusal 25.
fn is_short(batch: &[u8], journal: &[u8]) -> bool
    requires { (1 ≤ length batch.now / 245) × (detail_count batch.now ≤ 2 ^ 24) }
    ensures { result ≡ refusal25 batch.now journal.now }
{
    let d = batch.len() / 245 - 1;
    journal.len() < 12 + 205 * d
}

// Applies a batch to a master with `rows` rows, writes its journal, and answers the counts and the journal's length.
pub fn apply_journaled(
    master: &mut [u8],
    rows: usize,
    batch: &[u8],
    locals: &[u8],
    year: u64,
    verdicts: &mut [u64],
    rejects: &mut [u8],
    journal: &mut [u8],
) -> Result<RunResult, Refusal>
    ensures { IsJournaled
        (with_journal (call_of master.old rows batch.now locals.now year verdicts.old rejects.old)
        journal.old)
        (journaled_as result master.new verdicts.new rejects.new journal.new) }
{
    refusals::first_refusal(master, rows, batch, locals, year, verdicts, rejects)?;
    if is_short(batch, journal) {
        return Err(Refusal::ShortJournal);
    }
    let r = apply::run(
        master, rows, batch, locals, year, verdicts, rejects, journal, true,
    );
    Ok(r)
}
