// Refusal 26: a journal tested against a master, place by place, in one walk over both.
ghost use Rattle.std.specs.Prelude.{◌≡◌, true, List, ℕ, ◌+◌, ◌*◌, ◌≤◌, ◌<◌, length, drop};
ghost use Rattle.std.proofs.Math.Option.{Option, none};
ghost use Rattle.casemaster.specs.Master.{rows_of, are_sound_rows};
ghost use Rattle.journal.specs.Journal.{entries_in, journal_in};
ghost use Rattle.takeback.specs.Restored.{can_take_back};
ghost use Rattle.journal.specs.Reading.{reach};
ghost use Rattle.takeback.specs.Testing.{passes_from, IsCounts, IsLastIn, is_after, IsKeyNumbers, Followed, OldFollowed, PlaceTested};

use casemaster::master::ROW_WIDTH;
use casemaster::refusals;
use journal::{entries, numbers};
use text::{byte_order, words};

// A key of twelve bytes, as the numbers of its first eight and of its last four.
#[derive(Clone, Copy)]
pub struct Key {
    pub front: u64,
    pub back: u64,
}

// How far the test has come: the index of the next entry, the marks 00 met, and the key of the last row that would be left, if there is
// one.
#[derive(Clone, Copy)]
pub struct Tested {
    pub at: usize,
    pub marks: usize,
    pub last: Option<Key>,
}

// Whether a key stands behind the last one, if there is one.
fn is_after(last: Option<Key>, key: Key) -> bool
    ensures { (before : Option (List ℕ)) (bytes : List ℕ) → IsLastIn last before → IsKeyNumbers bytes key.front key.back
        → result ≡ is_after before bytes }
{
    match last {
        Some(last) => { byte_order::is_twelve_below_in(last.front, last.back, key.front, key.back) }
        None => true,
    }
}

// The key from index o on as the last one, if it stands behind that.
fn followed(bytes: &[u8], o: usize, s: Tested, at: usize) -> Option<Tested>
    requires { o + 12 ≤ length bytes.now }
    ensures { Followed bytes.now o at s result }
{
    let key = Key {
        front: words::eight_number(bytes, o),
        back: words::four_number(bytes, o + 8),
    };
    if !is_after(s.last, key) {
        return None;
    }
    Some(Tested {
        at,
        marks: s.marks,
        last: Some(key),
    })
}

// The old row from index o on, which must be sound: a master of this row alone, which 3 and 4 let pass.
fn old_followed(journal: &[u8], o: usize, s: Tested, at: usize) -> Option<Tested>
    requires { o + 200 ≤ length journal.now }
    ensures { OldFollowed journal.now o at s result }
{
    let end = o + ROW_WIDTH;
    if refusals::master_refusal(&journal[o..end], 1).is_err() {
        return None;
    }
    followed(journal, o, s, at)
}

// One place, where an entry is left.
fn entry_tested(m: &[u8], p: usize, journal: &[u8], s: Tested) -> Option<Tested>
    requires { (p * 200 + 200 ≤ length m.now) × (s.at < length journal.now) × (s.marks ≤ p) }
    ensures { PlaceTested m.now p journal.now s result }
{
    let at = s.at;
    let e = entries::entry_at(journal, at)?;
    let place = e.place;
    if place < p {
        return None;
    }
    if p < place {
        return followed(m, p * ROW_WIDTH, s, at);
    }
    match e.old {
        Some(o) => old_followed(journal, o, s, e.next),
        None => Some(Tested {
            at: e.next,
            marks: s.marks + 1,
            last: s.last,
        }),
    }
}

// One place; none where the test fails.
fn place_tested(m: &[u8], p: usize, journal: &[u8], s: Tested) -> Option<Tested>
    requires { (p * 200 + 200 ≤ length m.now) × (s.at ≤ length journal.now) × (s.marks ≤ p) }
    ensures { PlaceTested m.now p journal.now s result }
{
    let at = s.at;
    if at < journal.len() {
        return entry_tested(m, p, journal, s);
    }
    followed(m, p * ROW_WIDTH, s, at)
}

// Every place, then that no entry is left and as many marks were 00 as the count grew.
fn all_tested(m: &[u8], n: usize, journal: &[u8], before: usize, at: usize) -> bool
    requires { (n * 200 ≤ length m.now) × (are_sound_rows (rows_of n m.now) ≡ true) × (at ≤ length journal.now) × (n ≤ reach) }
    ensures { result ≡ passes_from n before 0 0 none (entries_in (drop at journal.now)) (rows_of n m.now) }
{
    let mut s = Tested {
        at,
        marks: 0,
        last: None,
    };
    for p in 0..n {
        let Some(next) = place_tested(m, p, journal, s) else {
            return false;
        };
        s = next;
    }
    let end = s.at;
    if end < journal.len() {
        return false;
    }
    n - s.marks == before
}

// The two counts at the front of a journal, and the index of its first entry.
#[derive(Clone, Copy)]
pub struct Counts {
    pub before: usize,
    pub after: usize,
    pub at: usize,
}

// The counts, if they stand there and have at most four groups each.
pub fn counts_of(journal: &[u8]) -> Option<Counts>
    ensures { IsCounts journal.now result }
{
    let first = numbers::number_at(journal, 0)?;
    let second = numbers::number_at(journal, first.next)?;
    Some(Counts {
        before: first.value,
        after: second.value,
        at: second.next,
    })
}

// Whether a journal fits a master of n sound rows, has its places in rising order and would leave sound rows.
pub fn can_take_back(m: &[u8], n: usize, journal: &[u8]) -> bool
    requires { (n * 200 ≤ length m.now) × (are_sound_rows (rows_of n m.now) ≡ true) × (n < reach) }
    ensures { result ≡ can_take_back (journal_in journal.now) (rows_of n m.now) }
{
    let Some(c) = counts_of(journal) else {
        return false;
    };
    c.after == n && all_tested(m, n, journal, c.before, c.at)
}
