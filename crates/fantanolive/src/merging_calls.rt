// The C function that merges two batches into one: it returns 0 or the refusal's number. Every argument may be anything that its type can
// hold.
ghost use Rattle.std.specs.Prelude.{◌≡◌};
ghost use Rattle.merging.specs.Merge.{merge_call};
ghost use Rattle.fantanolive.specs.MergingCalls.{merge_left};

use merging::merge;

// Merges two batches; `records` is how many records the merged batch has.
#[unsafe(no_mangle)]
pub extern "C" fn fantanolive_merge(
    first: &[u8],
    second: &[u8],
    out: &mut [u8],
    records: &mut u64,
) -> u64
    ensures { record { number = result; numbers = records.new; buffers = out.new }
        ≡ merge_left (merge_call first.now second.now out.old) records.old }
{
    match merge::merge(first, second, out) {
        Ok(count) => {
            *records = count as u64;
            0
        }
        Err(refusal) => refusal.number(),
    }
}
