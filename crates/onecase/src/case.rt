// The machine: its state by value, and a step per record that hands the new state back.
ghost use Rattle.std.specs.Prelude.{◌≡◌};
ghost use Rattle.std.proofs.Math.Option.{none, some};
ghost use Rattle.onecase.specs.Machine.{added, applied, row_of, IsStep};
ghost use Rattle.onecase.specs.Verdict.{IsRejection};
ghost use Rattle.judging.specs.State.{row_in};
ghost use Rattle.judging.specs.Setting.{setting_of};
ghost use Rattle.judging.specs.Parts.{UnderNames};

use crate::verdict::Verdict;
use crate::{changes, verdict};
use judging::setting::Setting;
use judging::{judge, warnings};
use layout::locals::LocalCodes;
use layout::record;
use layout::record::TransactionType;

// One row or none.
#[derive(Clone, Copy)]
pub struct Case {
    pub row: Option<[u8; 200]>,
}

// The new state, and the verdict on the record.
#[derive(Clone, Copy)]
pub struct Step {
    pub case: Case,
    pub verdict: Verdict,
}

// The machine's state without a row.
pub fn no_case() -> Case
    ensures { row_of result ≡ none }
{
    Case { row: None }
}

// The verdict on a record with the errors given.
pub fn rejection(set: u64, named: bool, row: Option<&[u8; 200]>) -> Verdict
    ensures { IsRejection set named (row_in row.entry) result }
{
    match row {
        Some(row) if named => Verdict::RejectedWithName(set, verdict::stored_name(row)),
        _ => Verdict::Rejected(set),
    }
}

impl Case {
    // What an A without an error leaves, in place.
    #[tactic(auto, unfolding(crate::specs::Machine::added))]
    fn add(&mut self, rec: &[u8; 245], locals: LocalCodes)
        ensures { row_of self.new ≡ some (added locals.entry.list.now rec.now (row_of self.old)) }
    {
        match &mut self.row {
            Some(row) => changes::add_to(row, rec, locals),
            None => self.row = Some(changes::fresh_row(rec, locals)),
        }
    }

    // What a record without an error leaves, in place.
    #[tactic(auto, unfolding(crate::specs::Machine::applied))]
    pub fn apply(&mut self, rec: &[u8; 245], locals: LocalCodes)
        ensures { row_of self.new ≡ applied locals.entry.list.now (row_of self.old) rec.now }
    {
        if record::is_type(rec, TransactionType::Add) {
            self.add(rec, locals);
        } else if let Some(row) = &mut self.row {
            changes::change(row, rec);
        }
    }

    // One record, whose name is `given` by a B record of the key or not: an error changes nothing.
    pub fn step(self, rec: &[u8; 245], given: bool, setting: Setting) -> Step
        ensures { UnderNames given rec.now (λ names.
            IsStep (setting_of setting.entry.state.now setting.entry.year setting.entry.locals.list.now names) (row_of self) rec.now result) }
    {
        let judged = judge::judge(rec, self.row.as_ref(), given, setting);
        let set = judged.set;
        if set == 0 {
            let warned = warnings::warned(rec, self.row.as_ref(), setting.locals);
            let mut case = self;
            case.apply(rec, setting.locals);
            return Step {
                case,
                verdict: Verdict::Accepted(warned),
            };
        }
        let verdict = rejection(set, judged.named, self.row.as_ref());
        Step {
            case: self,
            verdict,
        }
    }
}
