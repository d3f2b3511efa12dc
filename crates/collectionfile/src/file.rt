// The collection file: lines and a last record, and its refusals 22, 23 and 24.
ghost use Rattle.std.specs.Prelude.{◌≡◌, ◌+◌, ◌*◌, ◌≤◌, length};
ghost use Rattle.answers.specs.Refusal.{number_in};
ghost use Rattle.text.specs.Blocks.{blocks};
ghost use Rattle.layout.specs.Limits.{max_rows};
ghost use Rattle.collectionfile.specs.File.{is_total, file_refusal};
ghost use Rattle.collectionfile.specs.Parts.{AreLineTotals, is_last_right};

use crate::line::LINE_WIDTH;
use crate::{chart_05, line};
use answers::refusal::Refusal;
use layout::limits::MAX_RECORDS;
use text::fields;

// How many lines have an adjustment and a collection above zero.
#[derive(Clone, Copy)]
pub struct Totals {
    pub adjustments: u64,
    pub collections: u64,
}

// The totals of the first `count` lines.
fn count_totals(file: &[u8], count: usize) -> Totals
    requires { count * 240 ≤ length file.now }
    ensures { AreLineTotals (blocks 240 count file.now) result }
{
    let mut adjustments: u64 = 0;
    let mut collections: u64 = 0;
    for line in file[..count * LINE_WIDTH].chunks_exact(LINE_WIDTH) {
        let a = line::read_amounts(line);
        adjustments += u64::from(0 < a.adjustment.0);
        collections += u64::from(0 < a.collection.0);
    }
    Totals {
        adjustments,
        collections,
    }
}

// Whether a field of fifteen bytes is a number in digits.
fn is_total(field: &[u8], n: u64) -> bool
    requires { length field.now ≡ 15 }
    ensures { result ≡ is_total field.now n }
{
    if !fields::all_digits(field) {
        return false;
    }
    fields::number_of(field) == n
}

// Whether the record behind `count` lines is right as the last one.
fn is_last_right(file: &[u8], count: usize) -> bool
    requires { count * 240 + 240 ≤ length file.now }
    ensures { result ≡ is_last_right count file.now }
{
    let at = count * LINE_WIDTH;
    let end = at + LINE_WIDTH;
    let last = &file[at..end];
    let t = count_totals(file, count);
    let text = fields::same(
        fields::field(last, chart_05::CONTROL),
        b"\xE3\xD6\xE3\xC1\xD3\x40\x40\x40\x40",
    );
    let adjustments = is_total(fields::field(last, chart_05::ADJUSTMENTS), t.adjustments);
    let collections = is_total(fields::field(last, chart_05::COLLECTIONS), t.collections);
    text & (adjustments & collections)
}

// The first of refusals 22, 23 and 24 that holds; the list has space for `room` numbers.
pub fn file_refusal(file: &[u8], room: usize) -> Result<(), Refusal>
    ensures { number_in result ≡ file_refusal max_rows file.now room }
{
    if file.len() == 0 {
        return Err(Refusal::WrongFile);
    }
    if file.len() % LINE_WIDTH != 0 {
        return Err(Refusal::WrongFile);
    }
    if MAX_RECORDS < file.len() / LINE_WIDTH {
        return Err(Refusal::WrongFile);
    }
    let count = file.len() / LINE_WIDTH - 1;
    if !is_last_right(file, count) {
        return Err(Refusal::WrongTotal);
    }
    if room < count {
        return Err(Refusal::ShortLines);
    }
    Ok(())
}
