// The C functions of the static library: each runs one public call, returns 0 or the refusal's number, and writes the result numbers
// of a call that is carried out. Every argument may be anything that its type can hold.
#![tactic(auto)]

pub mod codepage_calls;
pub mod contacts_calls;
pub mod journal_calls;
pub mod lookup_calls;
pub mod merging_calls;
pub mod pages_calls;
pub mod posting_calls;
pub mod records_calls;
pub mod totalling_calls;

ghost use Rattle.std.specs.Prelude.{◌≡◌};
ghost use Rattle.fantanolive.specs.Calls.{apply_left, find_left, reconcile_left};
ghost use Rattle.batch.specs.Call.{call_of};

use batch::apply;
use lookup::find;
use reconciliation::reconcile;

// Applies a batch; the result numbers are accepted, rejected, warned, neither and rows.
#[unsafe(no_mangle)]
pub extern "C" fn fantanolive_apply(
    master: &mut [u8],
    rows: usize,
    batch: &[u8],
    locals: &[u8],
    year: u64,
    verdicts: &mut [u64],
    rejects: &mut [u8],
    res: &mut [u64; 5],
) -> u64
    ensures { record {
      number = result;
      numbers = res.new;
      buffers = record { master = master.new; verdicts = verdicts.new; rejects = rejects.new };
    }
        ≡ apply_left
        (call_of master.old rows batch.now locals.now year verdicts.old rejects.old)
        res.old }
{
    match apply::apply(master, rows, batch, locals, year, verdicts, rejects) {
        Ok(done) => {
            *res = [
                done.accepted,
                done.rejected,
                done.warned,
                done.neither,
                done.rows as u64,
            ];
            0
        }
        Err(apply_refusal) => apply_refusal.number(),
    }
}

// Finds the place of a key's row.
#[unsafe(no_mangle)]
pub extern "C" fn fantanolive_find(master: &[u8], rows: usize, key: &[u8], place: &mut u64) -> u64
    ensures { record { number = result; place = place.new } ≡ find_left master.now rows key.now place.old }
{
    match find::find(master, rows, key) {
        Ok(p) => {
            *place = p as u64;
            0
        }
        Err(find_refusal) => find_refusal.number(),
    }
}

// Writes the reconciliation file of a state and a date.
#[unsafe(no_mangle)]
pub extern "C" fn fantanolive_reconcile(
    master: &[u8],
    rows: usize,
    state: &[u8],
    date: &[u8],
    out: &mut [u8],
    records: &mut u64,
) -> u64
    ensures { record { number = result; numbers = records.new; buffers = out.new }
        ≡ reconcile_left master.now rows state.now date.now out.old records.old }
{
    match reconcile::reconcile(master, rows, state, date, out) {
        Ok(count) => {
            *records = count as u64;
            0
        }
        Err(reconcile_refusal) => reconcile_refusal.number(),
    }
}
