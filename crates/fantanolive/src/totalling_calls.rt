// The C function that adds up the totals of a batch's details: it returns 0 or the refusal's number. Every argument may be anything that
// its type can hold.
ghost use Rattle.std.specs.Prelude.{◌≡◌};
ghost use Rattle.fantanolive.specs.TotallingCalls.{totals_left};

use totalling::detail_totals;

// Adds up a batch's details; the totals are the TANF and Non-TANF counts, then the TANF and Non-TANF amounts.
#[unsafe(no_mangle)]
pub extern "C" fn fantanolive_totals(batch: &[u8], totals: &mut [u64; 4]) -> u64
    ensures { record { number = result; totals = totals.new } ≡ totals_left batch.now totals.old }
{
    match detail_totals::total(batch) {
        Ok(t) => {
            *totals = [
                t.tanf_count,
                t.non_tanf_count,
                t.tanf_amount,
                t.non_tanf_amount,
            ];
            0
        }
        Err(refusal) => refusal.number(),
    }
}
