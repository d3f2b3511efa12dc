// Rows restored: those that a journal marks 01 replaced, those that it marks 00 left out, the rest moved down, from the first place on.
ghost use Rattle.std.specs.Prelude.{◌+◌, ◌*◌, ◌≤◌, ◌<◌, length};
ghost use Rattle.takeback.specs.Restoring.{IsLater, CanRestore, PlaceRestored, AllRestored};

use casemaster::master;
use casemaster::master::ROW_WIDTH;
use journal::entries;
use text::fields;

// How far the restoring has come: the index of the next entry, and the place that the next row goes to.
#[derive(Clone, Copy)]
pub struct Position {
    pub at: usize,
    pub to: usize,
}

// A place that keeps its row.
fn row_kept(m: &mut [u8], p: usize, journal: &[u8], s: Position) -> Position
    requires { (p * 200 + 200 ≤ length m.old) × (s.to ≤ p) × (s.at ≤ length journal.now) }
    ensures { (c : CanRestore journal.now s.at p) → IsLater p c.entries
        → PlaceRestored m.old p journal.now s m.new result c.entries }
{
    let to = s.to;
    if p == to {
        return Position {
            at: s.at,
            to: to + 1,
        };
    }
    let row = master::row_at(m, p);
    master::put_row(m, to, row);
    Position {
        at: s.at,
        to: to + 1,
    }
}

// A place, where an entry is left.
fn entry_restored(m: &mut [u8], p: usize, journal: &[u8], s: Position) -> Position
    requires p_in_bounds { (p * 200 + 200 ≤ length m.old) × (s.to ≤ p) × (s.at < length journal.now) }
    requires can_restore { CanRestore journal.now s.at p }
    ensures { (c : CanRestore journal.now s.at p)
        → PlaceRestored m.old p journal.now s m.new result c.entries }
{
    let at = s.at;
    let to = s.to;
    let e = entries::entry_at(journal, at).unwrap();
    if e.place != p {
        return row_kept(m, p, journal, s);
    }
    let Some(o) = e.old else {
        return Position { at: e.next, to };
    };
    let end = o + ROW_WIDTH;
    fields::copy_in(m, to * ROW_WIDTH, &journal[o..end]);
    Position {
        at: e.next,
        to: to + 1,
    }
}

// One place.
fn place_restored(m: &mut [u8], p: usize, journal: &[u8], s: Position) -> Position
    requires p_in_bounds { (p * 200 + 200 ≤ length m.old) × (s.to ≤ p) × (s.at ≤ length journal.now) }
    requires can_restore { CanRestore journal.now s.at p }
    ensures { (c : CanRestore journal.now s.at p)
        → PlaceRestored m.old p journal.now s m.new result c.entries }
{
    let at = s.at;
    if at < journal.len() {
        return entry_restored(m, p, journal, s);
    }
    row_kept(m, p, journal, s)
}

// Every place; answers how many rows are left.
pub fn restore(m: &mut [u8], n: usize, journal: &[u8], at: usize) -> usize
    requires n_in_bounds { (n * 200 ≤ length m.old) × (at ≤ length journal.now) }
    requires can_restore { CanRestore journal.now at 0 }
    ensures { (c : CanRestore journal.now at 0) → AllRestored m.old n m.new result c.entries }
{
    let mut s = Position { at, to: 0 };
    for p in 0..n {
        s = place_restored(m, p, journal, s);
    }
    s.to
}
