// Posting the lines of a collection file to the rows of a master, in place.
ghost use Rattle.std.specs.Prelude.{◌≡◌, true, cond, ◌+◌, ◌*◌, ◌≤◌, ◌<◌, length, take, drop, set};
ghost use Rattle.std.proofs.Math.Option.{some};
ghost use Rattle.layout.specs.Limits.{max_rows};
ghost use Rattle.casemaster.specs.Master.{rows_of, are_sound_rows};
ghost use Rattle.casemaster.specs.Row.{is_sound_row};
ghost use Rattle.casemaster.specs.Rows.{place_with};
ghost use Rattle.collectionfile.specs.Line.{line_key};
ghost use Rattle.posting.specs.Post.{post_call, posted_as, IsPosting};
ghost use Rattle.posting.specs.Parts.{IsPut, LineDone, LinesDone};

use crate::{hints, turn};
use answers::refusal::Refusal;
use casemaster::master::ROW_WIDTH;
use casemaster::{master, refusals, search};
use collectionfile::line::LINE_WIDTH;
use collectionfile::{file, line};
use text::{counting, fields};

// The row at place p through a line.
fn post_at(m: &mut [u8], p: usize, line: &[u8]) -> bool
    requires { (p * 200 + 200 ≤ length m.old) × (is_sound_row (take 200 (drop (p * 200) m.old)) ≡ true) × (length line.now ≡ 240) }
    ensures { IsPut m.old p line.now m.new result }
{
    let old = master::row_at(m, p);
    match turn::post_row(old, line) {
        Some(new) => {
            master::put_row(m, p, new);
            true
        }
        None => false,
    }
}

// The first n rows through a line.
fn post_line(m: &mut [u8], n: usize, line: &[u8]) -> bool
    requires { (n * 200 ≤ length m.old) × (are_sound_rows (rows_of n m.old) ≡ true) × (length line.now ≡ 240) }
    ensures { LineDone m.old n line.now m.new result }
{
    let key = line::line_key(line);
    match search::place_of(m, n, &key) {
        Ok(p) => post_at(m, p, line),
        Err(_) => false,
    }
}

// Whether the row under a line's key is at place p, which may be any.
fn is_place_of(m: &[u8], n: usize, line: &[u8], p: usize) -> bool
    requires { (n * 200 ≤ length m.now) × (are_sound_rows (rows_of n m.now) ≡ true) × (length line.now ≡ 240) }
    ensures { result ≡ true → place_with (line_key line.now) (rows_of n m.now) ≡ some p }
{
    if n <= p {
        return false;
    }
    let key = line::line_key(line);
    let at = p * ROW_WIDTH;
    let end = at + 12;
    fields::same(&m[at..end], &key)
}

// The first n rows through a line: at place p, if the row under its key is there.
fn post_near(m: &mut [u8], n: usize, line: &[u8], p: usize) -> bool
    requires { (n * 200 ≤ length m.old) × (are_sound_rows (rows_of n m.old) ≡ true) × (length line.now ≡ 240) }
    ensures { LineDone m.old n line.now m.new result }
{
    if is_place_of(m, n, line, p) {
        return post_at(m, p, line);
    }
    post_line(m, n, line)
}

// Writes the number of the line at place i behind k others, unless it is posted.
fn note(lines: &mut [u32], k: usize, i: usize, posted: bool) -> usize
    requires { (k < length lines.old) × (i < max_rows) }
    ensures { (result ≡ cond posted k (k + 1)) × (lines.new ≡ cond posted lines.old (set lines.old k (i + 1))) }
{
    if posted {
        return k;
    }
    counting::list_number(lines, k, (i + 1) as u32)
}

// The first n rows through each of the first `count` lines.
fn work(m: &mut [u8], n: usize, file: &[u8], count: usize, lines: &mut [u32]) -> usize
    requires { (n * 200 ≤ length m.old) × (are_sound_rows (rows_of n m.old) ≡ true)
        × (count * 240 ≤ length file.now) × (count ≤ max_rows) × (count ≤ length lines.old) }
    ensures { LinesDone m.old n file.now count lines.old m.new lines.new result }
{
    let mut hints = [0usize; 16];
    let mut k: usize = 0;
    for i in 0..count {
        hints::renew(&mut hints, m, n, file, i, count);
        let p = hints::hint_for(&hints, i);
        let at = i * LINE_WIDTH;
        let end = at + LINE_WIDTH;
        let posted = post_near(m, n, &file[at..end], p);
        k = note(lines, k, i, posted);
    }
    k
}

// Posts each line of a collection file to a master, lists the numbers of those that are not posted, and answers how many
// they are.
pub fn post(master: &mut [u8], rows: usize, file: &[u8], lines: &mut [u32]) -> Result<u64, Refusal>
    ensures { IsPosting (post_call master.old rows file.now lines.old)
        (posted_as result master.new lines.new) }
{
    refusals::master_refusal(master, rows)?;
    file::file_refusal(file, lines.len())?;
    let count = file.len() / LINE_WIDTH - 1;
    let k = work(master, rows, file, count, lines);
    Ok(k as u64)
}
