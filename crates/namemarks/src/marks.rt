// The details of one key marked: sorted by name, those that give it first, and swept once; sorted again they are in their order of before.
ghost use Rattle.std.specs.Prelude.{◌≡◌, map, ◌≤◌, ◌^◌};
ghost use Rattle.namemarks.specs.Marks.{marked, RunDetails, RunReady, RunMarked};

use crate::codes;
use keyorder::tagged;
use sorting::sorting::sort;

// Marks the details of one key, all of its rank, whose names are given.
fn mark_sorted(batch: &[u8], state: &[u8], rank: u64, numbers: &mut [u64])
    requires { (rank ≤ 2 ^ 31) × RunDetails state.now batch.now rank numbers.old }
    ensures { numbers.new ≡ map (marked state.now batch.now numbers.old) numbers.old }
{
    codes::code_all(batch, state, numbers);
    sort(numbers);
    codes::sweep(rank, numbers);
    sort(numbers);
}

// Marks the details at positions p up to e, those of one key, whose names are given among them. Where none gives a name, nothing is written.
pub fn mark_run(batch: &[u8], state: &[u8], numbers: &mut [u64], p: usize, e: usize, gives: bool)
    requires { RunReady state.now batch.now numbers.old p e gives }
    ensures { RunMarked state.now batch.now p e numbers.old numbers.new }
{
    if gives {
        let rank = tagged::rank_part(numbers[p]);
        mark_sorted(batch, state, rank, &mut numbers[p..e]);
    }
}
