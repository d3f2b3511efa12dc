// One key's details: the names that they give marked among them, then each through the machine.
ghost use Rattle.onecase.specs.Machine.{row_of};
ghost use Rattle.keywork.specs.Worked.{RunWorked};
ghost use Rattle.keywork.specs.KeyWork.{KeyReady, run_setting};

use crate::worked;
use judging::setting::Setting;
use namemarks::marks;
use onecase::case::Case;

// The details at positions p up to e, those of one key, worked in batch order from a row or none; the state that they leave is handed back.
pub fn work_key(
    case: Case,
    batch: &[u8],
    numbers: &mut [u64],
    p: usize,
    e: usize,
    gives: bool,
    setting: Setting,
) -> Case
    requires { KeyReady setting.state.now setting.year setting.locals.list.now batch.now numbers.old p e gives }
    ensures { RunWorked (run_setting setting.entry.state.now setting.entry.year setting.entry.locals.list.now batch.now numbers.old p e)
        batch.now p e (row_of case) (row_of result) numbers.old numbers.new }
{
    marks::mark_run(batch, setting.state, numbers, p, e, gives);
    worked::work_run(case, batch, numbers, p, e, setting)
}
