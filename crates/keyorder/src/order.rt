// The details of a batch judged, numbered and put in the order of their keys.
ghost use Rattle.std.specs.Prelude.{◌*◌, ◌≤◌, ◌^◌, length};
ghost use Rattle.text.specs.Blocks.{blocks};
ghost use Rattle.keyorder.specs.Runs.{DetailsOrdered};

use crate::{runs, tagged};
use judging::setting::Setting;

// Fills the first d numbers with those of d details in the order of their keys, and answers how many are of the state's own keys; these
// come first.
pub fn order_details(batch: &[u8], d: usize, setting: Setting, numbers: &mut [u64]) -> usize
    requires { (d * 245 ≤ length batch.now) × (d ≤ length numbers.old) × (d ≤ 2 ^ 24) }
    ensures { DetailsOrdered setting.entry.state.now setting.entry.year setting.entry.locals.list.now (blocks 245 d batch.now) d
        numbers.old numbers.new result }
{
    tagged::order_tagged(batch, d, setting, numbers);
    runs::own_end(numbers, d)
}
