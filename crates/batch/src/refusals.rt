// The refusals of `apply`, in the order of the paper.
ghost use Rattle.std.specs.Prelude.{◌≡◌, true, ◌&&◌, ℕ, ◌+◌, ◌*◌, ◌/◌, ◌≤◌, leb, length};
ghost use Rattle.answers.specs.Answer.{refuse_if};
ghost use Rattle.answers.specs.Refusal.{number_in};
ghost use Rattle.layout.specs.Limits.{max_rows};
ghost use Rattle.layout.specs.Batch.{detail_count};
ghost use Rattle.casemaster.specs.Master.{rows_of, are_sound_rows};
ghost use Rattle.batch.specs.Call.{call_of};
ghost use Rattle.batch.specs.Refusals.{refusal1, refusal2, refusal9, space_refusal, apply_refusal};

use answers::refusal::Refusal;
use batchfile::refusals::batch_refusal;
use casemaster::refusals::master_refusal;
use layout::limits::MAX_ROWS;
use layout::locals;
use turns::adds;

// The first of refusals 1 and 2 that holds.
fn opening_refusal(year: u64, locals: &[u8]) -> Result<(), Refusal>
    ensures { number_in result ≡ refuse_if (refusal1 year) 1 (refuse_if (refusal2 locals.now) 2 0) }
{
    if year < 1900 {
        return Err(Refusal::WrongYear);
    }
    if 9999 < year {
        return Err(Refusal::WrongYear);
    }
    if locals::is_local_list(locals) {
        Ok(())
    } else {
        Err(Refusal::WrongLocals)
    }
}

// How many rows a master can have, by its space and by the limit.
fn most_rows(m: &[u8]) -> usize
    ensures { (rows : ℕ) → leb rows result ≡ (leb rows (length m.now / 200) && leb rows max_rows) }
{
    let places = m.len() / 200;
    if places < MAX_ROWS { places } else { MAX_ROWS }
}

// Refusal 9. The A records are counted first: where all of them have a place, no key is looked up.
fn lacks_room(m: &[u8], n: usize, batch: &[u8], d: usize) -> bool
    requires { (n * 200 ≤ length m.now) × (are_sound_rows (rows_of n m.now) ≡ true)
        × (d ≡ detail_count batch.now) × (d * 245 ≤ length batch.now) }
    ensures { result ≡ refusal9 max_rows m.now n batch.now }
{
    let count = adds::count_adds(batch, d);
    let most = most_rows(m);
    !adds::fit(m, n, batch, d, count, most)
}

// The first of refusals 9, 10 and 11 that holds.
fn space_refusal(
    m: &[u8],
    n: usize,
    batch: &[u8],
    locals: &[u8],
    year: u64,
    verdicts: &[u64],
    rejects: &[u8],
) -> Result<(), Refusal>
    requires { (n * 200 ≤ length m.now) × (are_sound_rows (rows_of n m.now) ≡ true)
        × (detail_count batch.now * 245 + 245 ≤ length batch.now) }
    ensures { number_in result
        ≡ space_refusal (call_of m.now n batch.now locals.now year verdicts.now rejects.now) }
{
    let d = batch.len() / 245 - 1;
    if lacks_room(m, n, batch, d) {
        return Err(Refusal::NoRoom);
    }
    if verdicts.len() < d {
        return Err(Refusal::ShortVerdicts);
    }
    if rejects.len() < 245 * (d + 1) {
        return Err(Refusal::ShortOutput);
    }
    Ok(())
}

// The first refusal that holds.
pub fn first_refusal(
    m: &[u8],
    n: usize,
    batch: &[u8],
    locals: &[u8],
    year: u64,
    verdicts: &[u64],
    rejects: &[u8],
) -> Result<(), Refusal>
    ensures { number_in result
        ≡ apply_refusal (call_of m.now n batch.now locals.now year verdicts.now rejects.now) }
{
    opening_refusal(year, locals)?;
    master_refusal(m, n)?;
    batch_refusal(batch)?;
    space_refusal(m, n, batch, locals, year, verdicts, rejects)
}
