// The printed line.
ghost use Rattle.std.specs.Prelude.{◌≡◌, ◌++◌, ◌+◌, ◌≤◌, length};
ghost use Rattle.text.specs.Blocks.{over};
ghost use Rattle.apply_output.specs.Ascii.{ascii_letter};
ghost use Rattle.apply_output.specs.Decimal.{decimal};
ghost use Rattle.apply_output.specs.Line.{letters, count_items, done_line, refused_line, line_of, Appended};
ghost use Rattle.apply_output.specs.Stop.{run_answer};
ghost use Rattle.layout.specs.Batch.{submitting_state};

use crate::parts::{detail_count, first};
use crate::stop::Stop;
use batch::apply::Applied;
use codepage::tables;
use text::fields;

// The ASCII code of an EBCDIC byte; a question mark for one that has none.
fn ascii_letter(b: u8) -> u8
    ensures { result ≡ ascii_letter b }
{
    let code = tables::ascii_code(b);
    if code == 0 { b'?' } else { code }
}

// The state of the control record, which is the last; fewer bytes where a batch has no whole record.
fn state_of(batch: &[u8]) -> &[u8]
    ensures { (result.now ≡ submitting_state batch.now) × (length result.now ≤ 2) }
{
    let at = detail_count(batch) * 245;
    first(&batch[at..], 2)
}

// Writes a state as letters at the front of out.
fn put_letters(out: &mut [u8], state: &[u8])
    requires { length state.now ≤ length out.old }
    ensures { Appended out.old 0 (letters state.now) out.new (length state.now) }
{
    for (i, b) in state.iter().enumerate() {
        out[i] = ascii_letter(*b);
    }
}

// Writes s behind the first `at` bytes of out, and answers where it ends.
fn append(out: &mut [u8], at: usize, s: &[u8]) -> usize
    requires { at + length s.now ≤ length out.old }
    ensures { Appended out.old at s.now out.new result }
{
    fields::copy_in(out, at, s);
    at + s.len()
}

// Writes a number in decimal, which takes at most 20 bytes.
fn append_number(out: &mut [u8], at: usize, n: u64) -> usize
    requires { at + 20 ≤ length out.old }
    ensures { (Appended out.old at (decimal n) out.new result) × (result ≤ at + 20) }
{
    let mut text = [0u8; 20];
    let k = io::decimal(n, &mut text);
    fields::copy_in(out, at, &text[0..k]);
    at + k
}

// Writes a word and its number.
fn append_item(out: &mut [u8], at: usize, word: &[u8], n: u64) -> usize
    requires { at + length word.now + 20 ≤ length out.old }
    ensures { (Appended out.old at (word.now ++ decimal n) out.new result)
        × (result ≤ at + length word.now + 20) }
{
    let end = append(out, at, word);
    append_number(out, end, n)
}

// Writes the counts over both case types.
fn append_counts(out: &mut [u8], at: usize, accepted: u64, rejected: u64, warned: u64) -> usize
    requires { at + 88 ≤ length out.old }
    ensures { (Appended out.old at (count_items accepted rejected warned) out.new result) × (result ≤ at + 88) }
{
    let end = append_item(out, at, b" accepted ", accepted);
    let end = append_item(out, end, b" rejected ", rejected);
    append_item(out, end, b" warned ", warned)
}

// Writes the line of a run that is carried out, and answers its length.
fn put_done(
    out: &mut [u8],
    state: &[u8],
    accepted: u64,
    rejected: u64,
    warned: u64,
    neither: u64,
    rows: u64,
) -> usize
    requires { (160 ≤ length out.old) × (length state.now ≤ 2) }
    ensures { Appended out.old 0 (done_line state.now accepted rejected warned neither rows) out.new result }
{
    put_letters(out, state);
    let end = append_counts(out, state.len(), accepted, rejected, warned);
    let end = append_item(out, end, b" neither ", neither);
    let end = append_item(out, end, b" rows ", rows);
    append(out, end, b"\n")
}

// Writes the line of a refusal, and answers its length.
fn put_refused(out: &mut [u8], n: u64) -> usize
    requires { 160 ≤ length out.old }
    ensures { Appended out.old 0 (refused_line n) out.new result }
{
    let end = append_item(out, 0, b"refused ", n);
    fields::copy_in(out, end, b"\n");
    end + 1
}

// Writes the line of an answer to a batch over the front of out, keeps the bytes behind it, and answers its length.
pub fn put_line(out: &mut [u8], batch: &[u8], answer: Result<Applied, Stop>) -> usize
    requires { 160 ≤ length out.old }
    ensures out_after { out.new ≡ over (line_of (submitting_state batch.now) (run_answer answer)) out.old }
    ensures value { result ≡ length (line_of (submitting_state batch.now) (run_answer answer)) }
{
    match answer {
        Ok(done) => put_done(
            out,
            state_of(batch),
            done.accepted,
            done.rejected,
            done.warned,
            done.neither,
            done.rows as u64,
        ),
        Err(stop) => put_refused(out, stop.number()),
    }
}
