// The refusals 3 and 4, which every call over a master begins with.
ghost use Rattle.std.specs.Prelude.{◌≡◌};
ghost use Rattle.answers.specs.Refusal.{number_in};
ghost use Rattle.layout.specs.Limits.{max_rows};
ghost use Rattle.casemaster.specs.Refusals.{master_refusal, old_master_refusal};
ghost use Rattle.casemaster.specs.Forms.{refusal_in};

use crate::master;
use crate::master::ROW_WIDTH;
use crate::row::Form;
use answers::refusal::Refusal;
use layout::limits::MAX_ROWS;

// The first of refusals 3 and 4 that holds.
fn refusal_in(master: &[u8], rows: usize, form: Form) -> Result<(), Refusal>
    ensures { number_in result ≡ refusal_in max_rows form master.now rows }
{
    if master.len() % ROW_WIDTH != 0 {
        return Err(Refusal::WrongMaster);
    }
    if master.len() / ROW_WIDTH < rows {
        return Err(Refusal::WrongMaster);
    }
    if MAX_ROWS < rows {
        return Err(Refusal::WrongMaster);
    }
    if master::are_sound_rows(master, rows, form) {
        Ok(())
    } else {
        Err(Refusal::UnsoundRow)
    }
}

// Over rows with cents.
pub fn master_refusal(master: &[u8], rows: usize) -> Result<(), Refusal>
    ensures { number_in result ≡ master_refusal max_rows master.now rows 0 }
{
    refusal_in(master, rows, Form::New)
}

// Over rows without cents.
pub fn old_master_refusal(master: &[u8], rows: usize) -> Result<(), Refusal>
    ensures { number_in result ≡ old_master_refusal max_rows master.now rows }
{
    refusal_in(master, rows, Form::Old)
}
