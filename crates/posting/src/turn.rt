// One row through one line.
ghost use Rattle.std.specs.Prelude.{◌≡◌, true, length};
ghost use Rattle.casemaster.specs.Row.{is_sound_row};
ghost use Rattle.posting.specs.Parts.{turn_of};

use crate::balance;
use crate::balance::MOST;
use casemaster::row;
use collectionfile::line;

// The row after a line that is posted on it; none where the line is not.
pub fn post_row(row: [u8; 200], line: &[u8]) -> Option<[u8; 200]>
    requires { (is_sound_row row ≡ true) × (length line.now ≡ 240) }
    ensures { result ≡ turn_of line.now row }
{
    let amounts = line::read_amounts(line);
    let right = amounts.right;
    if !right {
        return None;
    }
    let live = row::is_live(&row);
    if !live {
        return None;
    }
    let collection = amounts.collection;
    let adjustment = amounts.adjustment;
    let cents = balance::balance_of(&row);
    if MOST - cents.0 < adjustment.0 {
        return None;
    }
    let next = balance::balance_after(cents, collection, adjustment);
    Some(balance::with_balance(row, next))
}
