// The totals that the details of a batch give, whatever its last record says.
ghost use Rattle.std.specs.Prelude.{◌≡◌};
ghost use Rattle.layout.specs.Limits.{max_rows};
ghost use Rattle.totalling.specs.DetailTotals.{totalled_as, totals_answer};

use answers::refusal::Refusal;
use batchfile::totals::Totals;
use batchfile::{refusals, totals};
use layout::records::RECORD_WIDTH;

// The counts and amounts of a batch's details, under each case type.
pub fn total(batch: &[u8]) -> Result<Totals, Refusal>
    ensures { totalled_as result ≡ totals_answer max_rows batch.now }
{
    if refusals::is_wrong_length(batch) {
        return Err(Refusal::WrongBatch);
    }
    let details = batch.len() / RECORD_WIDTH - 1;
    let t = totals::totals_of(batch, details);
    Ok(t)
}
