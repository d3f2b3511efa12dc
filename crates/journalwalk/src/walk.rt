// The batch worked key by key, in rising order of key, beside the master's rows: each key once, with all its details in batch order; and a
// journal of what changes, where one is wanted.
ghost use Rattle.std.specs.Prelude.{◌≡◌, true, ◌+◌, ◌*◌, ◌≤◌, ◌<◌, length};
ghost use Rattle.casemaster.specs.Master.{row_in};
ghost use Rattle.text.specs.Options.{one_or_none};
ghost use Rattle.casemaster.specs.Search.{KeysRise};
ghost use Rattle.judging.specs.State.{row_if};
ghost use Rattle.onecase.specs.Machine.{row_of};
ghost use Rattle.keyorder.specs.Runs.{SortedFrom};
ghost use Rattle.keywalk.specs.Walking.{RowOfPut, fixed_of, start_of, StaysBefore, WalkReady};
ghost use Rattle.journalwalk.specs.JournalWalk.{stand_of, KeyRoom, KeyJournaled, JournalRoom, WalkJournaled};

use crate::key_entry;
use casemaster::{master, search};
use judging::setting::Setting;
use keyorder::{runs, tagged};
use keywalk::counting;
use keywork::key_work;
use layout::records;
use onecase::case;
use onecase::case::Case;
use text::counting::one_if;

// How far the walk has come: the position in the key order, the first row not yet passed, the place that the next row goes to, and the
// index that the next entry goes to.
#[derive(Clone, Copy)]
pub struct Cursor {
    pub position: usize,
    pub from: usize,
    pub to: usize,
    pub written: usize,
}

// The machine's state with the row at a place, if one is held there.
fn case_at(m: &[u8], p: usize, held: bool) -> Case
    requires { held ≡ true → p * 200 + 200 ≤ length m.now }
    ensures { row_of result ≡ row_if held (row_in m.now p) }
{
    if held {
        Case {
            row: Some(master::row_at(m, p)),
        }
    } else {
        case::no_case()
    }
}

// Writes the row of a state, if it holds one, at a place, and answers the next place.
fn put_row_of(m: &mut [u8], p: usize, case: Case) -> usize
    requires { (p + length (one_or_none (row_of case))) * 200 ≤ length m.old }
    ensures { RowOfPut m.old p (row_of case) m.new result }
{
    match case.row {
        Some(row) => {
            master::put_row(m, p, row);
            p + 1
        }
        None => p,
    }
}

// One key walked: the rows below it are passed, its details worked, its entry written, and its row, if it has one then, put in behind them.
fn walk_key(
    m: &mut [u8],
    end: usize,
    s: Cursor,
    batch: &[u8],
    numbers: &mut [u64],
    own: usize,
    setting: Setting,
    journal: &mut [u8],
    wanted: bool,
) -> Cursor
    requires position_lt_own { (s.position < own) × SortedFrom setting.state.now setting.year setting.locals.list.now batch.now numbers.old s.position own }
    requires to_le_from { (s.to ≤ s.from) × (s.from ≤ end) × (end * 200 ≤ length m.old) × KeysRise m.old s.from end }
    requires stays_before { StaysBefore (fixed_of setting.state.now setting.year setting.locals.list.now batch.now own end) (stand_of s m.old numbers.old) }
    requires key_room { KeyRoom (fixed_of setting.state.now setting.year setting.locals.list.now batch.now own end) (stand_of s m.old numbers.old) wanted s.written journal.old }
    ensures { KeyJournaled (fixed_of setting.entry.state.now setting.entry.year setting.entry.locals.list.now batch.now own end)
        (stand_of s m.old numbers.old) (stand_of result m.new numbers.new)
        wanted journal.old s.written journal.new result.written }
{
    let p = s.position;
    let from = s.from;
    let to = s.to;
    let run = runs::run_at(numbers, p, own);
    let e = run.end;
    let gives = run.gives;
    let key = records::key_at(batch, tagged::index_part(numbers[p]));
    let passed = search::rows_below(m, from, end, &key);
    master::pull_rows(m, from, to, passed);
    let at = from + passed;
    let held = counting::is_row_of(m, at, end, &key);
    let case = case_at(m, at, held);
    let next = key_work::work_key(case, batch, numbers, p, e, gives, setting);
    let written = key_entry::put_key_entry(journal, s.written, wanted, to + passed, case, next);
    let placed = put_row_of(m, to + passed, next);
    Cursor {
        position: e,
        from: at + one_if(held),
        to: placed,
        written,
    }
}

// Walks all own keys: the rows from place `from` up to `end` and the details in key order become the rows after all details, from the
// first place up to `end`, and each detail's verdict stands below its index at its own position. Where a journal is wanted the entries of
// what changes are written from index `at` on; answers the index behind them.
pub fn walk_keys(
    m: &mut [u8],
    from: usize,
    end: usize,
    batch: &[u8],
    numbers: &mut [u64],
    own: usize,
    setting: Setting,
    journal: &mut [u8],
    at: usize,
    wanted: bool,
) -> usize
    requires walk_ready { WalkReady (fixed_of setting.state.now setting.year setting.locals.list.now batch.now own end) (start_of from m.old numbers.old) }
    requires journal_room { JournalRoom wanted own end at journal.old }
    ensures { WalkJournaled (fixed_of setting.entry.state.now setting.entry.year setting.entry.locals.list.now batch.now own end)
        (start_of from m.old numbers.old) wanted journal.old at
        m.new numbers.new journal.new result }
{
    let mut s = Cursor {
        position: 0,
        from,
        to: 0,
        written: at,
    };
    while s.position < own {
        s = walk_key(m, end, s, batch, numbers, own, setting, journal, wanted);
    }
    s.written
}
