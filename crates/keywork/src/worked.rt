// The details of one key, at the positions of one rank, worked through the machine: each verdict at its detail's own position, below the
// index.
ghost use Rattle.std.specs.Prelude.{◌≡◌, not, ℕ, ◌+◌, ◌*◌, ◌^◌, ◌≤◌, ◌<◌, eqb, length, get_or};
ghost use Rattle.layout.specs.Batch.{record_at};
ghost use Rattle.layout.specs.Codes.{number_of_codes};
ghost use Rattle.judging.specs.Front.{front_errors, IsFront};
ghost use Rattle.onecase.specs.Machine.{row_of};
ghost use Rattle.keyorder.specs.Tagged.{index_part, flag_wrong, flag_given};
ghost use Rattle.keywork.specs.Worked.{UnderTag, OneWorked, UnderTags, RunWorked, UnderAlone, AloneWorked};

use crate::{ahead, packed};
use judging::front;
use judging::front::FrontErrors;
use judging::setting::Setting;
use keyorder::tagged;
use layout::records;
use onecase::case;
use onecase::case::Case;

// Whether the name of a detail is given.
pub fn flag_given(number: u64) -> bool
    ensures { result ≡ flag_given number }
{
    number % 2 == 1
}

// The errors but 09 and 17 of a detail by its number: none, or they are judged again.
fn front_of(x: u64, again: bool, rec: &[u8; 245], setting: Setting) -> FrontErrors
    ensures { (flag_wrong x ≡ not (eqb (number_of_codes (front_errors setting.entry.state.now setting.entry.year setting.entry.locals.list.now rec.now)) 0)
        → IsFront setting.entry.state.now setting.entry.year setting.entry.locals.list.now rec.now result) × (result.set ≤ 2 ^ 19) }
{
    if tagged::flag_wrong(x) | again {
        front::judge_front(rec, setting)
    } else {
        front::no_errors()
    }
}

// The detail of a number on one row or none, in place; answers the number with the verdict.
fn work_tagged(case: &mut Case, batch: &[u8], x: u64, again: bool, setting: Setting) -> u64
    requires { index_part x * 245 + 245 ≤ length batch.now }
    ensures { UnderTag setting.entry.state.now setting.entry.year setting.entry.locals.list.now (record_at batch.now (index_part x)) x (λ s.
        OneWorked s (row_of case.old) (record_at batch.now (index_part x)) (index_part x) (row_of case.new) result) }
{
    let i = tagged::index_part(x);
    let rec = records::record_at(batch, i);
    let f = front_of(x, again, &rec, setting);
    let local = tagged::flag_local(x);
    let given = flag_given(x);
    let verdict = case.step_known(&rec, f, local, given, setting.locals);
    packed::with_verdict(i, verdict)
}

// The details at positions p up to e through the machine in batch order; the state that they leave is handed back.
pub fn work_run(
    case: Case,
    batch: &[u8],
    numbers: &mut [u64],
    p: usize,
    e: usize,
    setting: Setting,
) -> Case
    requires { (p ≤ e) × (e ≤ length numbers.old)
        × ((q : ℕ) → p ≤ q → q < e → index_part (get_or numbers.old q 0) * 245 + 245 ≤ length batch.now) }
    ensures { UnderTags setting.entry.state.now setting.entry.year setting.entry.locals.list.now batch.now numbers.old p e (λ s.
        RunWorked s batch.now p e (row_of case) (row_of result) numbers.old numbers.new) }
{
    let mut left = case;
    for q in p..e {
        let again = ahead::read_ahead(batch, numbers, q);
        numbers[q] = work_tagged(&mut left, batch, numbers[q], again, setting);
    }
    left
}

// The details at positions p up to e, each on no row, where the names given make no difference.
pub fn work_alone(batch: &[u8], numbers: &mut [u64], p: usize, e: usize, setting: Setting)
    requires { (p ≤ e) × (e ≤ length numbers.old)
        × ((q : ℕ) → p ≤ q → q < e → index_part (get_or numbers.old q 0) * 245 + 245 ≤ length batch.now) }
    ensures { UnderAlone setting.entry.state.now setting.entry.year setting.entry.locals.list.now batch.now numbers.old p e (λ s.
        AloneWorked s batch.now p e numbers.old numbers.new) }
{
    for q in p..e {
        let mut none = case::no_case();
        numbers[q] = work_tagged(&mut none, batch, numbers[q], false, setting);
    }
}
