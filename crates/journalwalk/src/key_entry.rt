// The entry of one key in a journal.
ghost use Rattle.std.specs.Prelude.{◌+◌, ◌≤◌, length};
ghost use Rattle.onecase.specs.Machine.{row_of};
ghost use Rattle.journal.specs.Writing.{Wrote, key_bytes};

use journal::writing;
use onecase::case::Case;
use text::fields;

// Writes the entry of a key, where a journal is wanted and the key's row at the end is new or differs from the one at entry; answers the index
// behind it.
pub fn put_key_entry(
    journal: &mut [u8],
    at: usize,
    wanted: bool,
    place: usize,
    old: Case,
    new: Case,
) -> usize
    requires { at + length (key_bytes wanted place (row_of old) (row_of new)) ≤ length journal.old }
    ensures { Wrote journal.old at (key_bytes wanted place (row_of old) (row_of new)) journal.new result }
{
    if !wanted {
        return at;
    }
    let Some(row) = new.row else {
        return at;
    };
    let Some(was) = old.row else {
        return writing::put_new(journal, at, place);
    };
    if fields::same(&was, &row) {
        return at;
    }
    writing::put_old(journal, at, place, was)
}
