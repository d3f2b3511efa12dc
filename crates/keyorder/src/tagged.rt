// The details judged once, in batch order: what was found goes with rank and index into one number, by which they are then sorted.
// bits.rt shows the parts.
ghost use Rattle.std.specs.Prelude.{◌≡◌, ◌+◌, ◌*◌, ◌^◌, ◌≤◌, ◌<◌, length};
ghost use Rattle.text.specs.Blocks.{blocks};
ghost use Rattle.layout.specs.Batch.{record_at};
ghost use Rattle.layout.specs.Record.{type_of};
ghost use Rattle.keyorder.specs.Tagged.{rank_part, index_part, kind_part, flag_gives, flag_local, flag_wrong, makes_from, kind_of, IsTag, Tagged, TaggedAll, TaggedOrder};

use crate::bits::{INDEX_PLACE, INDEXES, RANK_PLACE};
use crate::rank;
use judging::setting::Setting;
use judging::{front, warnings};
use layout::record::TransactionType;
use layout::{record, records};
use sorting::sorting::sort;
use text::counting;

// The kind of a record by its type, in four bits.
#[tactic(auto, unfolding(crate::specs::Tagged::kind_of))]
fn kind_of(rec: &[u8; 245]) -> u64
    ensures { (result ≡ kind_of (type_of rec.now)) × (result < 16) }
{
    match record::type_of(rec) {
        Some(TransactionType::Add) => 0,
        Some(TransactionType::Rename) => 1,
        Some(TransactionType::CaseId) => 2,
        Some(TransactionType::Delete) => 3,
        Some(TransactionType::LocalCode) => 4,
        Some(TransactionType::Modify) => 5,
        Some(TransactionType::Exclude) => 6,
        Some(TransactionType::Payment) => 7,
        Some(TransactionType::Transfer) => 8,
        Some(TransactionType::Address) => 9,
        None => 15,
    }
}

// The parts in one number.
fn tag(rank: u64, i: u64, kind: u64, gives: bool, local: bool, wrong: bool) -> u64
    requires { (rank ≤ 2 ^ 31) × (i < 2 ^ 24) × (kind < 16) }
    ensures { IsTag rank i kind gives local wrong result }
{
    let g = counting::one_if(gives) as u64;
    let l = counting::one_if(local) as u64;
    let w = counting::one_if(wrong) as u64;
    rank * RANK_PLACE + (i * INDEX_PLACE + (kind * 16 + (g * 8 + (l * 4 + w * 2))))
}

// And each part again.
pub fn rank_part(number: u64) -> u64
    ensures { result ≡ rank_part number }
{
    number / RANK_PLACE
}

pub fn index_part(number: u64) -> usize
    ensures { (result ≡ index_part number) × (result < 2 ^ 24) }
{
    (number / INDEX_PLACE % INDEXES) as usize
}

pub fn kind_part(number: u64) -> u64
    ensures { result ≡ kind_part number }
{
    number / 16 % 16
}

pub fn flag_gives(number: u64) -> bool
    ensures { result ≡ flag_gives number }
{
    number / 8 % 2 == 1
}

pub fn flag_local(number: u64) -> bool
    ensures { result ≡ flag_local number }
{
    number / 4 % 2 == 1
}

pub fn flag_wrong(number: u64) -> bool
    ensures { result ≡ flag_wrong number }
{
    number / 2 % 2 == 1
}

// Whether a detail makes a row where there is none: an A without an error.
pub fn makes_from(number: u64) -> bool
    ensures { result ≡ makes_from number }
{
    (kind_part(number) == 0) & !flag_wrong(number)
}

// Detail i judged, its number.
fn tag_detail(batch: &[u8], i: usize, setting: Setting) -> u64
    requires { (i * 245 + 245 ≤ length batch.now) × (i < 2 ^ 24) }
    ensures { Tagged setting.entry.state.now setting.entry.year setting.entry.locals.list.now i (record_at batch.now i) result }
{
    let rec = records::record_at(batch, i);
    let f = front::judge_front(&rec, setting);
    let key = records::key_at(batch, i);
    let rank = rank::rank_of(setting.state, &key, f.key);
    let set = f.set;
    let wrong = set != 0;
    let local = warnings::has_51(&rec, setting.locals);
    let kind = kind_of(&rec);
    let gives = (kind == 1) & !wrong;
    tag(rank, i as u64, kind, gives, local, wrong)
}

// Writes the numbers of the first d details.
fn tag_details(batch: &[u8], d: usize, setting: Setting, numbers: &mut [u64])
    requires { (d * 245 ≤ length batch.now) × (d ≤ length numbers.old) × (d ≤ 2 ^ 24) }
    ensures { TaggedAll setting.entry.state.now setting.entry.year setting.entry.locals.list.now (blocks 245 d batch.now) d
        numbers.old numbers.new }
{
    for i in 0..d {
        numbers[i] = tag_detail(batch, i, setting);
    }
}

// The details judged and their numbers in the order of their keys.
pub fn order_tagged(batch: &[u8], d: usize, setting: Setting, numbers: &mut [u64])
    requires { (d * 245 ≤ length batch.now) × (d ≤ length numbers.old) × (d ≤ 2 ^ 24) }
    ensures { TaggedOrder setting.entry.state.now setting.entry.year setting.entry.locals.list.now (blocks 245 d batch.now) d
        numbers.old numbers.new }
{
    tag_details(batch, d, setting, numbers);
    sort(&mut numbers[0..d]);
}
