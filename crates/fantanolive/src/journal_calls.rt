// The C functions that apply a batch with a journal and take it back: each returns 0 or the refusal's number, and writes the result
// numbers of a call that is carried out. Every argument may be anything that its type can hold.
ghost use Rattle.std.specs.Prelude.{◌≡◌};
ghost use Rattle.batch.specs.Call.{call_of};
ghost use Rattle.journaledapply.specs.Journaled.{with_journal};
ghost use Rattle.fantanolive.specs.JournalCalls.{journaled_left, take_back_left};

use journaledapply::apply;
use takeback::take_back;

// Applies a batch and writes its journal; the result numbers are accepted, rejected, warned, neither, rows and the journal's length.
#[unsafe(no_mangle)]
pub extern "C" fn fantanolive_apply_journaled(
    master: &mut [u8],
    rows: usize,
    batch: &[u8],
    locals: &[u8],
    year: u64,
    verdicts: &mut [u64],
    rejects: &mut [u8],
    journal: &mut [u8],
    res: &mut [u64; 6],
) -> u64
    ensures { record {
      number = result;
      numbers = res.new;
      buffers = record {
        applied = record { master = master.new; verdicts = verdicts.new; rejects = rejects.new };
        journal = journal.new;
      };
    }
        ≡ journaled_left
        (with_journal (call_of master.old rows batch.now locals.now year verdicts.old rejects.old)
        journal.old)
        res.old }
{
    match apply::apply_journaled(
        master, rows, batch, locals, year, verdicts, rejects, journal,
    ) {
        Ok(done) => {
            *res = [
                done.accepted,
                done.rejected,
                done.warned,
                done.neither,
                done.rows as u64,
                done.written as u64,
            ];
            0
        }
        Err(apply_refusal) => apply_refusal.number(),
    }
}

// Takes a batch back with its journal; `left` is how many rows the master has then.
#[unsafe(no_mangle)]
pub extern "C" fn fantanolive_take_back(
    master: &mut [u8],
    rows: usize,
    journal: &[u8],
    left: &mut u64,
) -> u64
    ensures { record { number = result; numbers = left.new; buffers = master.new }
        ≡ take_back_left master.old rows journal.now left.old }
{
    match take_back::take_back(master, rows, journal) {
        Ok(count) => {
            *left = count as u64;
            0
        }
        Err(take_back_refusal) => take_back_refusal.number(),
    }
}
