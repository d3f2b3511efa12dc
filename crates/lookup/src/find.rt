// Finding a case.
ghost use Rattle.std.specs.Prelude.{◌≡◌};
ghost use Rattle.layout.specs.Limits.{max_rows};
ghost use Rattle.lookup.specs.Find.{found_of, find_answer};

use answers::refusal::Refusal;
use casemaster::{refusals, search};
use layout::key;

// The place of the row with a key, deleted or not, the first being 0.
pub fn find(master: &[u8], rows: usize, key: &[u8]) -> Result<usize, Refusal>
    ensures { found_of result ≡ find_answer max_rows master.now rows key.now }
{
    refusals::master_refusal(master, rows)?;
    if !key::is_sound_key(key) {
        return Err(Refusal::UnsoundKey);
    }
    match search::place_of(master, rows, key) {
        Ok(p) => Ok(p),
        Err(_) => Err(Refusal::NoSuchRow),
    }
}
