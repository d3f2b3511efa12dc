// All details of a batch worked, key by key, in three parts: the details arranged, the rows moved, the verdicts noted. Where a journal is wanted
// it is written.
ghost use Rattle.std.specs.Prelude.{◌≡◌, true, ◌+◌, ◌≤◌, length};
ghost use Rattle.journal.specs.Numbers.{number_bytes};
ghost use Rattle.journal.specs.Space.{journal_space};
ghost use Rattle.journal.specs.Writing.{Wrote};
ghost use Rattle.keywalk.specs.Walking.{fixed_of};
ghost use Rattle.layout.specs.Batch.{detail_count, submitting_state};
ghost use Rattle.batch.specs.Call.{call_of};
ghost use Rattle.batch.specs.Refusals.{apply_refusal};
ghost use Rattle.batch.specs.Journaling.{counts_part, WorkJournaled};
ghost use Rattle.batch.specs.Parts.{ArrangeReady, DetailsArranged, MoveReady, RowsMoved, NoteReady, VerdictsNoted};

use batchfile::stated;
use casemaster::master;
use journal::writing;
use journalwalk::walk;
use judging::setting::Setting;
use keyorder::order;
use keywalk::counting;
use keywork::{batch_order, worked};
use rejectfile::verdicts;
use rejectfile::verdicts::Progress;

// How many details are of own keys, and how many rows they add.
#[derive(Clone, Copy)]
pub struct Arranged {
    pub own: usize,
    pub new: usize,
}

// How many rows there are then, and the journal's length.
#[derive(Clone, Copy)]
pub struct Moved {
    pub rows: usize,
    pub written: usize,
}

// What the work has come to, and the journal's length.
#[derive(Clone, Copy)]
pub struct JournaledWork {
    pub progress: Progress,
    pub written: usize,
}

// The details put in the order of their keys, and the rows that they add counted.
fn arrange(m: &[u8], n: usize, batch: &[u8], setting: Setting, numbers: &mut [u64]) -> Arranged
    requires { ArrangeReady m.now n batch.now setting.state.now numbers.old }
    ensures { DetailsArranged (fixed_of setting.entry.state.now setting.entry.year setting.entry.locals.list.now batch.now result.own n)
        m.now numbers.old numbers.new result.new }
{
    let d = batch.len() / 245 - 1;
    let own = order::order_details(batch, d, setting, numbers);
    let new = counting::new_rows(m, n, setting.state, numbers, own);
    Arranged { own, new }
}

// The counts at the front of the journal, where one is wanted.
fn start_journal(journal: &mut [u8], before: usize, after: usize, wanted: bool) -> usize
    requires { wanted ≡ true → length (number_bytes before) + length (number_bytes after) ≤ length journal.old }
    ensures { Wrote journal.old 0 (counts_part wanted before after) journal.new result }
{
    if wanted {
        return writing::put_counts(journal, before, after);
    }
    0
}

// The rows moved up by those that are added, and all own keys walked.
fn move_rows(
    m: &mut [u8],
    n: usize,
    batch: &[u8],
    numbers: &mut [u64],
    own: usize,
    new: usize,
    setting: Setting,
    journal: &mut [u8],
    wanted: bool,
) -> Moved
    requires { MoveReady (fixed_of setting.state.now setting.year setting.locals.list.now batch.now own (n + new)) m.old n numbers.old new wanted journal.old }
    ensures { RowsMoved (fixed_of setting.entry.state.now setting.entry.year setting.entry.locals.list.now batch.now own result.rows)
        m.old n numbers.old wanted journal.old
        m.new numbers.new journal.new result.written }
{
    let rows = n + new;
    master::shift_rows(m, n, new);
    let at = start_journal(journal, n, rows, wanted);
    let written = walk::walk_keys(
        m, new, rows, batch, numbers, own, setting, journal, at, wanted,
    );
    Moved { rows, written }
}

// The details without an own key judged, and all verdicts written in batch order.
fn note_verdicts(
    rows: usize,
    batch: &[u8],
    numbers: &mut [u64],
    own: usize,
    setting: Setting,
    rejects: &mut [u8],
) -> Progress
    requires { NoteReady (fixed_of setting.state.now setting.year setting.locals.list.now batch.now own rows) numbers.old rejects.old }
    ensures { VerdictsNoted (fixed_of setting.entry.state.now setting.entry.year setting.entry.locals.list.now batch.now own rows)
        numbers.old rejects.old numbers.new rejects.new result }
{
    let d = batch.len() / 245 - 1;
    worked::work_alone(batch, numbers, own, d, setting);
    batch_order::put_back(numbers, d);
    let counts = stated::case_counts(batch);
    verdicts::write_verdicts(
        rows,
        batch,
        d,
        counts.tanf,
        counts.non_tanf,
        numbers,
        rejects,
    )
}

// All details worked: what that leaves is what each in turn leaves.
pub fn work(
    m: &mut [u8],
    n: usize,
    batch: &[u8],
    setting: Setting,
    verdicts: &mut [u64],
    rejects: &mut [u8],
    journal: &mut [u8],
    wanted: bool,
) -> JournaledWork
    requires rejects_value { (apply_refusal (call_of m.old n batch.now setting.locals.list.now setting.year verdicts.old rejects.old) ≡ 0)
        × (setting.state.now ≡ submitting_state batch.now) }
    requires batch_in_bounds { wanted ≡ true → journal_space (detail_count batch.now) ≤ length journal.old }
    ensures { WorkJournaled
        (call_of m.old n batch.now setting.entry.locals.list.now setting.entry.year verdicts.old rejects.old)
        wanted journal.old m.new verdicts.new rejects.new result.progress journal.new result.written }
{
    let a = arrange(m, n, batch, setting, verdicts);
    let own = a.own;
    let moved = move_rows(m, n, batch, verdicts, own, a.new, setting, journal, wanted);
    let progress = note_verdicts(moved.rows, batch, verdicts, own, setting, rejects);
    JournaledWork {
        progress,
        written: moved.written,
    }
}
