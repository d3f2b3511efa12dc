// Many cases looked up together, in one walk over the rows.
ghost use Rattle.std.specs.Prelude.{◌≡◌, ◌&&◌, ◌+◌, ◌*◌, ◌≤◌, ◌<◌, length, take, drop};
ghost use Rattle.text.specs.Fields.{every};
ghost use Rattle.text.specs.Blocks.{blocks};
ghost use Rattle.text.specs.ByteOrder.{order_in, order_of, rising};
ghost use Rattle.layout.specs.Key.{is_sound_key};
ghost use Rattle.layout.specs.Limits.{max_rows};
ghost use Rattle.lookup.specs.Many.{are_keys, many_as, many_outcome};
ghost use Rattle.lookup.specs.Steps.{HasWalked};

use answers::refusal::Refusal;
use casemaster::master::ROW_WIDTH;
use casemaster::refusals;
use layout::{key, states};
use std::cmp::Ordering;
use text::{byte_order, words};

// The bytes of a key.
const KEY_WIDTH: usize = 12;

// The answer for a key without a row.
const NO_PLACE: u32 = 4294967295;

// Whether the first n keys are sound and rise strictly, in one pass. The two numbers of a key are read when it is compared with the one
// before, and again serve for its own soundness; a state known already is not looked up again. The pass ends inside the loop, so that the
// key's own test has one call.
fn are_sound_rising(keys: &[u8], n: usize) -> bool
    requires { n * 12 ≤ length keys.now }
    ensures { result ≡ (every is_sound_key (blocks 12 n keys.now) && rising (blocks 12 n keys.now)) }
{
    if n < 1 {
        return true;
    }
    let mut known = states::FIRST_CODE;
    let mut front = words::eight_number(keys, 0);
    let mut back = words::four_number(keys, 8);
    for i in 0..n {
        if !key::is_sound_key_in(known, front, back) {
            return false;
        }
        if i + 1 == n {
            return true;
        }
        let at = (i + 1) * KEY_WIDTH;
        let next_front = words::eight_number(keys, at);
        let next_back = words::four_number(keys, at + 8);
        if !byte_order::is_twelve_below_in(front, back, next_front, next_back) {
            return false;
        }
        known = key::state_in(front);
        front = next_front;
        back = next_back;
    }
    true
}

// Whether a list is made of sound keys, strictly rising.
fn are_keys(keys: &[u8]) -> bool
    ensures { result ≡ are_keys keys.now }
{
    if keys.len() % KEY_WIDTH != 0 {
        return false;
    }
    are_sound_rising(keys, keys.len() / KEY_WIDTH)
}

// The order of the key of the row at place p against the key at place i: one comparison, by their two numbers.
fn compare(m: &[u8], p: usize, keys: &[u8], i: usize) -> Ordering
    requires { (p * 200 + 12 ≤ length m.now) × (i * 12 + 12 ≤ length keys.now) }
    ensures { order_in result ≡ order_of (take 12 (drop (p * 200) m.now)) (take 12 (drop (i * 12) keys.now)) }
{
    let row_at = p * ROW_WIDTH;
    let at = i * KEY_WIDTH;
    let row_front = words::eight_number(m, row_at);
    let row_back = words::four_number(m, row_at + 8);
    let front = words::eight_number(keys, at);
    let back = words::four_number(keys, at + 8);
    if byte_order::is_twelve_below_in(row_front, row_back, front, back) {
        return Ordering::Less;
    }
    if byte_order::is_twelve_below_in(front, back, row_front, row_back) {
        return Ordering::Greater;
    }
    Ordering::Equal
}

// Walks over n rows and k keys side by side, writes the answer for each key, and returns the number of comparisons.
fn walk(m: &[u8], n: usize, keys: &[u8], k: usize, places: &mut [u32]) -> u64
    requires { (n * 200 ≤ length m.now) × (n < 4294967295) × (k * 12 ≤ length keys.now) × (k ≤ length places.old) }
    ensures { HasWalked m.now n keys.now k places.old places.new result }
{
    let mut comparisons: u64 = 0;
    let mut p: usize = 0;
    let mut i: usize = 0;
    while i < k {
        if p == n {
            places[i] = NO_PLACE;
            i += 1;
        } else {
            let place = p as u32;
            let next = p + 1;
            comparisons += 1;
            match compare(m, p, keys, i) {
                Ordering::Less => {
                    p = next;
                }
                Ordering::Equal => {
                    places[i] = place;
                    i += 1;
                }
                Ordering::Greater => {
                    places[i] = NO_PLACE;
                    i += 1;
                }
            }
        }
    }
    comparisons
}

// Looks many cases up in one walk: the place of each key's row, deleted or not, the first being 0, or 4,294,967,295. Answers how many
// comparisons with a row were made.
pub fn find_many(
    master: &[u8],
    rows: usize,
    keys: &[u8],
    places: &mut [u32],
) -> Result<u64, Refusal>
    ensures { many_as result places.new ≡ many_outcome max_rows master.now rows keys.now places.old }
{
    refusals::master_refusal(master, rows)?;
    let k = keys.len() / KEY_WIDTH;
    if !are_keys(keys) {
        return Err(Refusal::WrongKeys);
    }
    if places.len() < k {
        return Err(Refusal::ShortPlaces);
    }
    let comparisons = walk(master, rows, keys, k, places);
    Ok(comparisons)
}
