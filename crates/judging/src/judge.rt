// The set of a record's errors, from its two parts.
ghost use Rattle.std.specs.Prelude.{◌≡◌, length};
ghost use Rattle.judging.specs.Parts.{UnderNames, IsJudged};
ghost use Rattle.judging.specs.State.{row_in};
ghost use Rattle.judging.specs.Setting.{setting_of};

use crate::front;
use crate::front::Judged;
use crate::setting::Setting;

// The set of a record's errors, under every set of names that has the record's own exactly where it is `given`.
pub fn judge(rec: &[u8; 245], row: Option<&[u8; 200]>, given: bool, setting: Setting) -> Judged
    ensures { UnderNames given rec.now (λ names.
        IsJudged (setting_of setting.entry.state.now setting.entry.year setting.entry.locals.list.now names) (row_in row.entry) rec.now result) }
{
    let f = front::judge_front(rec, setting);
    let alone = f.set;
    let on_row = front::judge_on_row(f, rec, row, given);
    let set = alone + on_row.set;
    Judged {
        set,
        named: on_row.named,
    }
}
