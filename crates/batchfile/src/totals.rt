// A batch: details, then the control record of Chart A-2, and the totals that it carries.
ghost use Rattle.std.specs.Prelude.{◌≡◌, true, ◌*◌, ◌^◌, ◌≤◌, length};
ghost use Rattle.text.specs.Blocks.{blocks};
ghost use Rattle.batchfile.specs.Totals.{has_ctl, has_state, has_totals, amount_in};
ghost use Rattle.batchfile.specs.TotalsParts.{count_in, has_amount, FitsOneMore, IsAdded, AreTotals, counts_agree, amounts_agree};

use layout::record::TransactionType::{Add, Modify};
use layout::records::RECORD_WIDTH;
use layout::{chart_a1, chart_a2, key, record, states};
use text::fields;
use text::fields::Columns;

// The control record's four totals, one behind the other.
const ALL_TOTALS: Columns = Columns { first: 6, last: 45 };

// The totals of some details: how many they are and what they amount to, under each case type.
#[derive(Clone, Copy)]
pub struct Totals {
    pub tanf_count: u64,
    pub non_tanf_count: u64,
    pub tanf_amount: u64,
    pub non_tanf_amount: u64,
}

// Whether a control record has CTL in its columns 3-5.
pub fn has_ctl(rec: &[u8; 245]) -> bool
    ensures { result ≡ has_ctl rec.now }
{
    fields::same(fields::field(rec, chart_a2::CONTROL), b"\xC3\xE3\xD3")
}

// Whether its state is in the table.
pub fn has_state(rec: &[u8; 245]) -> bool
    ensures { result ≡ has_state rec.now }
{
    states::is_state(fields::field(rec, chart_a2::STATE))
}

// Whether its totals are digits and its filler is spaces.
pub fn has_totals(rec: &[u8; 245]) -> bool
    ensures { result ≡ has_totals rec.now }
{
    let digits = fields::all_digits(fields::field(rec, ALL_TOTALS));
    let filler = fields::is_blank(fields::field(rec, chart_a2::FILLER));
    digits & filler
}

// 1 where a detail is of a case type, else 0.
fn count_in(case_type: u8, rec: &[u8]) -> u64
    requires { length rec.now ≡ 245 }
    ensures { result ≡ count_in case_type rec.now }
{
    (rec[chart_a1::CASE_TYPE_AT] == case_type) as u64
}

// Whether a detail is of a type whose amount counts: A or M.
fn has_amount(rec: &[u8]) -> bool
    requires { length rec.now ≡ 245 }
    ensures { result ≡ has_amount rec.now }
{
    record::is_type(rec, Add) | record::is_type(rec, Modify)
}

// The amount of a detail of a case type where it counts and is eight digits, else 0.
fn amount_in(case_type: u8, rec: &[u8]) -> u64
    requires { length rec.now ≡ 245 }
    ensures { result ≡ amount_in case_type rec.now }
{
    let amount = fields::field(rec, chart_a1::ARREARAGE);
    if (rec[chart_a1::CASE_TYPE_AT] == case_type)
        & (has_amount(rec) & fields::are_digits(amount, 8))
    {
        fields::number_of(amount)
    } else {
        0
    }
}

// The totals with a detail added.
fn with_detail(t: Totals, rec: &[u8]) -> Totals
    requires { (FitsOneMore t) × (length rec.now ≡ 245) }
    ensures { IsAdded rec.now t result }
{
    Totals {
        tanf_count: t.tanf_count + count_in(key::TANF, rec),
        non_tanf_count: t.non_tanf_count + count_in(key::NON_TANF, rec),
        tanf_amount: t.tanf_amount + amount_in(key::TANF, rec),
        non_tanf_amount: t.non_tanf_amount + amount_in(key::NON_TANF, rec),
    }
}

// The totals of the first n records, none of which is copied out.
pub fn totals_of(batch: &[u8], n: usize) -> Totals
    requires { (n * 245 ≤ length batch.now) × (n ≤ 2 ^ 32) }
    ensures { AreTotals (blocks 245 n batch.now) result }
{
    let mut t = Totals {
        tanf_count: 0,
        non_tanf_count: 0,
        tanf_amount: 0,
        non_tanf_amount: 0,
    };
    for rec in batch[..n * RECORD_WIDTH].chunks_exact(RECORD_WIDTH) {
        t = with_detail(t, rec);
    }
    t
}

// Whether the counts are those of the control record.
pub fn are_counts_right(rec: &[u8; 245], t: Totals) -> bool
    requires { has_totals rec.now ≡ true }
    ensures { result ≡ counts_agree rec.now t }
{
    let tanf = fields::number_at(rec, chart_a2::TOTAL_TANF);
    let non_tanf = fields::number_at(rec, chart_a2::TOTAL_NON_TANF);
    (tanf == t.tanf_count) & (non_tanf == t.non_tanf_count)
}

// Whether the amounts are those of the control record.
pub fn are_amounts_right(rec: &[u8; 245], t: Totals) -> bool
    requires { has_totals rec.now ≡ true }
    ensures { result ≡ amounts_agree rec.now t }
{
    let tanf = fields::number_at(rec, chart_a2::AMOUNT_TANF);
    let non_tanf = fields::number_at(rec, chart_a2::AMOUNT_NON_TANF);
    (tanf == t.tanf_amount) & (non_tanf == t.non_tanf_amount)
}
