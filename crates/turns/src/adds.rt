// Records of type A: how many there are, and whether those whose key has no row fit.
ghost use Rattle.std.specs.Prelude.{◌≡◌, true, ◌∷◌, [], ◌+◌, ◌*◌, ◌≤◌, leb, length, take, drop};
ghost use Rattle.text.specs.Blocks.{blocks};
ghost use Rattle.text.specs.Characters;
ghost use Rattle.casemaster.specs.Master.{rows_of, are_sound_rows};
ghost use Rattle.layout.specs.Record.{is_type};
ghost use Rattle.turns.specs.Adds.{adds_without_row, add_count};

use casemaster::search;
use layout::record::TransactionType;
use layout::records::RECORD_WIDTH;
use layout::{record, records};
use text::counting::one_if;

// Whether the record at place i is of type A.
fn is_add(batch: &[u8], i: usize) -> bool
    requires { i * 245 + 245 ≤ length batch.now }
    ensures { result ≡ is_type Characters.A (take 245 (drop (i * 245) batch.now)) }
{
    let at = i * RECORD_WIDTH;
    let end = at + RECORD_WIDTH;
    record::is_type(&batch[at..end], TransactionType::Add)
}

// How many of the first d records are of type A.
pub fn count_adds(batch: &[u8], d: usize) -> usize
    requires { d * 245 ≤ length batch.now }
    ensures { (result ≡ add_count (blocks 245 d batch.now)) × (result ≤ d) }
{
    let mut count: usize = 0;
    for i in 0..d {
        count += one_if(is_add(batch, i));
    }
    count
}

// 1 where the record at place i is an A whose key has a row, else 0. The type is read first, the key of an A alone.
fn has_row(m: &[u8], n: usize, batch: &[u8], i: usize) -> usize
    requires { (n * 200 ≤ length m.now) × (are_sound_rows (rows_of n m.now) ≡ true) × (i * 245 + 245 ≤ length batch.now) }
    ensures { result + adds_without_row (rows_of n m.now) (take 245 (drop (i * 245) batch.now) ∷ [])
        ≡ add_count (take 245 (drop (i * 245) batch.now) ∷ []) }
{
    if !is_add(batch, i) {
        return 0;
    }
    let key = records::key_at(batch, i);
    match search::place_of(m, n, &key) {
        Ok(_) => 1,
        Err(_) => 0,
    }
}

// Whether the rows are at most `most` with one more for each A record among the first d whose key has no row; `adds` are the A records.
// All of these are counted as new at first, and a key that has a row is taken off: no key is looked up once the rows fit.
pub fn fit(m: &[u8], n: usize, batch: &[u8], d: usize, adds: usize, most: usize) -> bool
    requires { (n * 200 ≤ length m.now) × (are_sound_rows (rows_of n m.now) ≡ true) × (d * 245 ≤ length batch.now)
        × (adds ≡ add_count (blocks 245 d batch.now)) × (adds ≤ d) }
    ensures { result ≡ leb (n + adds_without_row (rows_of n m.now) (blocks 245 d batch.now)) most }
{
    let mut rows = n + adds;
    for i in 0..d {
        if rows <= most {
            return true;
        }
        rows -= has_row(m, n, batch, i);
    }
    rows <= most
}
