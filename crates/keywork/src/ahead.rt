// Memory brought closer. The walk meets the records in key order, each in another place, and would wait for every one of them alone; so at every
// sixteenth position a byte of each line of the sixteen records behind the next sixteen is read, and their waits overlap. What is read decides only whether a
// detail is judged again, and a detail that is judged again has the errors that it had: no outcome can change.
ghost use Rattle.std.specs.Prelude.{◌≤◌, length};

use keyorder::tagged;
use layout::records::RECORD_WIDTH;

// How many records are read together.
const TOGETHER: usize = 16;

// A byte of each line of the record of a number, joined; 0 where there is no such record.
fn touched(batch: &[u8], x: u64) -> u8 {
    let at = tagged::index_part(x) * RECORD_WIDTH;
    if batch.len() < at + RECORD_WIDTH {
        return 0;
    }
    batch[at] & batch[at + 64] & batch[at + 128] & batch[at + 192] & batch[at + 244]
}

// The same of the records at the sixteen positions behind the next sixteen, as far as there are so many.
fn touched_together(batch: &[u8], numbers: &[u64], q: usize) -> u8
    requires { q ≤ length numbers.now }
{
    let mut joined = 0xFFu8;
    for i in 0..TOGETHER {
        let ahead = TOGETHER + i;
        if numbers.len() - q <= ahead {
            return joined;
        }
        joined &= touched(batch, numbers[q + ahead]);
    }
    joined
}

// At every sixteenth position: whether all bytes read are FF, which no record's are.
pub fn read_ahead(batch: &[u8], numbers: &[u64], q: usize) -> bool
    requires { q ≤ length numbers.now }
{
    if q % TOGETHER != 0 {
        return false;
    }
    touched_together(batch, numbers, q) == 0xFF
}
