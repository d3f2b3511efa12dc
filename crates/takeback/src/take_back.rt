// Taking a batch back with its journal.
ghost use Rattle.std.specs.Prelude.{◌≡◌};
ghost use Rattle.answers.specs.Refusal.{number_in};
ghost use Rattle.layout.specs.Limits.{max_rows};
ghost use Rattle.takeback.specs.TakeBack.{take_back_refusal, taken_as, take_back_outcome};

use crate::{restoring, testing};
use answers::refusal::Refusal;
use casemaster::refusals;

// The first refusal that holds.
fn take_back_refusal(master: &[u8], rows: usize, journal: &[u8]) -> Result<(), Refusal>
    ensures { number_in result ≡ take_back_refusal max_rows master.now rows journal.now }
{
    refusals::master_refusal(master, rows)?;
    if testing::can_take_back(master, rows, journal) {
        Ok(())
    } else {
        Err(Refusal::WrongJournal)
    }
}

// Takes a batch back from the master that it left, and answers the old row count.
pub fn take_back(master: &mut [u8], rows: usize, journal: &[u8]) -> Result<usize, Refusal>
    ensures { taken_as result master.new ≡ take_back_outcome max_rows master.old rows journal.now }
{
    take_back_refusal(master, rows, journal)?;
    let c = testing::counts_of(journal).unwrap();
    restoring::restore(master, rows, journal, c.at);
    Ok(c.before)
}
