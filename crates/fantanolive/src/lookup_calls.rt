// The C function that looks many cases up together: it returns 0 or the refusal's number. Every argument may be anything that its type
// can hold.
ghost use Rattle.std.specs.Prelude.{◌≡◌};
ghost use Rattle.fantanolive.specs.LookupCalls.{many_left};

use lookup::many;

// Looks the keys of a rising list up; `comparisons` is how many comparisons with a row were made.
#[unsafe(no_mangle)]
pub extern "C" fn fantanolive_find_many(
    master: &[u8],
    rows: usize,
    keys: &[u8],
    places: &mut [u32],
    comparisons: &mut u64,
) -> u64
    ensures { record { number = result; numbers = comparisons.new; buffers = places.new }
        ≡ many_left master.now rows keys.now places.old comparisons.old }
{
    match many::find_many(master, rows, keys, places) {
        Ok(count) => {
            *comparisons = count;
            0
        }
        Err(refusal) => refusal.number(),
    }
}
