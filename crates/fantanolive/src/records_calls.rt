// The C function that writes the records that lead to a wanted case: it returns 0 or the refusal's number. Every argument may be anything
// that its type can hold.
ghost use Rattle.std.specs.Prelude.{◌≡◌};
ghost use Rattle.fantanolive.specs.RecordsCalls.{records_left};

use caserecords::records_to;

// Writes the C, L, R and M records from a row to a wanted row; `records` is how many there are.
#[unsafe(no_mangle)]
pub extern "C" fn fantanolive_records_to(
    row: &[u8],
    wanted: &[u8],
    locals: &[u8],
    out: &mut [u8],
    records: &mut u64,
) -> u64
    ensures { record { number = result; numbers = records.new; buffers = out.new }
        ≡ records_left row.now wanted.now locals.now out.old records.old }
{
    match records_to::records_to(row, wanted, locals, out) {
        Ok(count) => {
            *records = count as u64;
            0
        }
        Err(refusal) => refusal.number(),
    }
}
