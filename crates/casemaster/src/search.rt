// The place of a key among a master's rows, and how many rows from a place on are below it.
ghost use Rattle.std.specs.Prelude.{◌≡◌, true, ◌+◌, ◌*◌, ◌≤◌, ◌<◌, length, take, drop};
ghost use Rattle.casemaster.specs.Master.{rows_of, keys_of};
ghost use Rattle.casemaster.specs.Search.{IsPlace, KeysRise, Between, AreBelow};
ghost use Rattle.text.specs.ByteOrder.{order_in, order_of, is_less, rising};

use crate::master::ROW_WIDTH;
use std::cmp::Ordering;
use text::byte_order;

// The order of the key of the row at place p against a key.
fn order_at(m: &[u8], p: usize, key: &[u8]) -> Ordering
    requires { (p * 200 + 12 ≤ length m.now) × (length key.now ≡ 12) }
    ensures { order_in result ≡ order_of (take 12 (drop (p * 200) m.now)) key.now }
{
    let at = p * ROW_WIDTH;
    let end = at + 12;
    byte_order::order_of(&m[at..end], key)
}

// Where a key's row is among the first n rows, or else where it would go, by halving.
pub fn place_of(m: &[u8], n: usize, key: &[u8]) -> Result<usize, usize>
    requires { (n * 200 ≤ length m.now) × (length key.now ≡ 12) × (rising (keys_of (rows_of n m.now)) ≡ true) }
    ensures { IsPlace result key.now (rows_of n m.now) }
{
    let mut lo: usize = 0;
    let mut hi: usize = n;
    while lo < hi {
        let mid = lo + (hi - lo) / 2;
        match order_at(m, mid, key) {
            Ordering::Less => {
                lo = mid + 1;
            }
            Ordering::Equal => {
                return Ok(mid);
            }
            Ordering::Greater => {
                hi = mid;
            }
        }
    }
    Err(lo)
}

// Whether the key of the row at place p is below a key.
fn is_row_below(m: &[u8], p: usize, key: &[u8]) -> bool
    requires { (p * 200 + 12 ≤ length m.now) × (length key.now ≡ 12) }
    ensures { result ≡ is_less (order_of (take 12 (drop (p * 200) m.now)) key.now) }
{
    let at = p * ROW_WIDTH;
    let end = at + 12;
    byte_order::is_below(&m[at..end], key)
}

// How far a search has come: so many rows have keys below the one looked for, and the first that hasn't stands at most so many rows on.
#[derive(Clone, Copy)]
pub struct Reach {
    pub low: usize,
    pub high: usize,
}

// The rows from place `from` on, up to place `end`, looked at in steps that double.
fn reach_by_doubling(m: &[u8], from: usize, end: usize, key: &[u8]) -> Reach
    requires { (from ≤ end) × (end * 200 ≤ length m.now) × (length key.now ≡ 12) × KeysRise m.now from end }
    ensures { Between m.now from end key.now result.low result.high }
{
    let n = end - from;
    let mut low: usize = 0;
    while low < n - low {
        let next = low + low;
        if !is_row_below(m, from + next, key) {
            return Reach { low, high: next };
        }
        low = next + 1;
    }
    Reach { low, high: n }
}

// How many rows from place `from` on, up to place `end`, where keys rise, have a key below the one given: few are looked at, by steps that
// double and then by halving. The library's halving, `partition_point`, takes half as long again here.
pub fn rows_below(m: &[u8], from: usize, end: usize, key: &[u8]) -> usize
    requires { (from ≤ end) × (end * 200 ≤ length m.now) × (length key.now ≡ 12) × KeysRise m.now from end }
    ensures { AreBelow m.now from end key.now result }
{
    let reached = reach_by_doubling(m, from, end, key);
    let mut lo = reached.low;
    let mut hi = reached.high;
    while lo < hi {
        let mid = lo + (hi - lo) / 2;
        if is_row_below(m, from + mid, key) {
            lo = mid + 1;
        } else {
            hi = mid;
        }
    }
    lo
}
