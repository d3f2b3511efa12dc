// The refusals of a batch, in the order of the papers, for every call that takes one.
ghost use Rattle.std.specs.Prelude.{◌≡◌};
ghost use Rattle.answers.specs.Refusal.{number_in};
ghost use Rattle.layout.specs.Limits.{max_rows};
ghost use Rattle.batchfile.specs.Refusals.{refusal5, batch_refusal};

use crate::totals;
use answers::refusal::Refusal;
use layout::limits::MAX_RECORDS;
use layout::records;
use layout::records::RECORD_WIDTH;

// Refusal 5: a batch that is empty, no multiple of a record's width, or of too many records.
pub fn is_wrong_length(batch: &[u8]) -> bool
    ensures { result ≡ refusal5 max_rows batch.now }
{
    let n = batch.len();
    (n == 0) | (n % RECORD_WIDTH != 0) | (MAX_RECORDS < n / RECORD_WIDTH)
}

// The first of refusals 5, 6, 20, 21, 7 and 8 that holds.
pub fn batch_refusal(batch: &[u8]) -> Result<(), Refusal>
    ensures { number_in result ≡ batch_refusal max_rows batch.now 0 }
{
    if is_wrong_length(batch) {
        return Err(Refusal::WrongBatch);
    }
    let details = batch.len() / RECORD_WIDTH - 1;
    let control = records::record_at(batch, details);
    if !totals::has_ctl(&control) {
        return Err(Refusal::NoCtl);
    }
    if !totals::has_state(&control) {
        return Err(Refusal::ControlState);
    }
    if !totals::has_totals(&control) {
        return Err(Refusal::ControlForm);
    }
    let t = totals::totals_of(batch, details);
    if !totals::are_counts_right(&control, t) {
        return Err(Refusal::WrongCount);
    }
    if !totals::are_amounts_right(&control, t) {
        return Err(Refusal::WrongAmount);
    }
    Ok(())
}
