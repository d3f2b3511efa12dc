// The rows that a batch adds, counted key by key, in rising order of key, beside the master's rows.
ghost use Rattle.std.specs.Prelude.{◌≡◌, true, ◌*◌, ◌≤◌, ◌<◌, length};
ghost use Rattle.casemaster.specs.Master.{rows_of, are_sound_rows};
ghost use Rattle.casemaster.specs.Search.{KeysRise};
ghost use Rattle.keywalk.specs.Walking.{is_row_of, UnderOrder, fixed_of, new_own_keys, KeyCounted};

use casemaster::{master, search};
use keyorder::{rank, runs, tagged};
use text::counting::one_if;
use text::fields;

// How far the count of new rows has come: the position in the key order, the first row not yet passed, and the new rows so far.
#[derive(Clone, Copy)]
pub struct Count {
    pub position: usize,
    pub from: usize,
    pub new: usize,
}

// Whether the row at a place before the end has a key.
pub fn is_row_of(m: &[u8], p: usize, end: usize, key: &[u8]) -> bool
    requires { (p ≤ end) × (end * 200 ≤ length m.now) }
    ensures { result ≡ is_row_of m.now p end key.now }
{
    if p < end {
        let at = p * master::ROW_WIDTH;
        let key_end = at + 12;
        fields::same(&m[at..key_end], key)
    } else {
        false
    }
}

// One key counted. Where one of its details makes a row, the rows below it are passed, and it is looked whether it has one; no record is
// read.
fn count_key(m: &[u8], n: usize, s: Count, state: &[u8], numbers: &[u64], own: usize) -> Count
    requires position_lt_own { (s.position < own) × (own ≤ length numbers.now) × (length state.now ≡ 2) }
    requires from_le_n { (s.from ≤ n) × (n * 200 ≤ length m.now) × (s.new ≤ s.position) × KeysRise m.now s.from n }
    ensures { KeyCounted state.now own n m.now numbers.now s result × (result.new ≤ result.position) }
{
    let p = s.position;
    let from = s.from;
    let new = s.new;
    let run = runs::run_at(numbers, p, own);
    let e = run.end;
    let makes = run.makes;
    if !makes {
        return Count {
            position: e,
            from,
            new,
        };
    }
    let key = rank::key_of(state, tagged::rank_part(numbers[p]));
    let at = from + search::rows_below(m, from, n, &key);
    let one = one_if(!is_row_of(m, at, n, &key));
    Count {
        position: e,
        from: at,
        new: new + one,
    }
}

// How many rows the batch adds: keys without a row, one of whose details makes one.
pub fn new_rows(m: &[u8], n: usize, state: &[u8], numbers: &[u64], own: usize) -> usize
    requires { (n * 200 ≤ length m.now) × (are_sound_rows (rows_of n m.now) ≡ true) × (own ≤ length numbers.now) × (length state.now ≡ 2) }
    ensures { UnderOrder state.now own numbers.now (λ batch year list.
        result ≡ new_own_keys (fixed_of state.now year list batch own n) numbers.now (rows_of n m.now)) }
{
    let mut s = Count {
        position: 0,
        from: 0,
        new: 0,
    };
    while s.position < own {
        s = count_key(m, n, s, state, numbers, own);
    }
    s.new
}
