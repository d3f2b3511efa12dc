// The totals that two control records state, summed; the control record that states some totals; and the counts that a right one states.
ghost use Rattle.std.specs.Prelude.{◌≡◌, true, ◌+◌, ◌*◌, ◌<◌, ◌≤◌, length};
ghost use Rattle.text.specs.Fields.{columns, number, all_digits};
ghost use Rattle.text.specs.Characters;
ghost use Rattle.layout.specs.Batch.{detail_count, details_of, control_of};
ghost use Rattle.batchfile.specs.Totals.{has_totals, count_of, are_counts_right};
ghost use Rattle.batchfile.specs.Stated.{totals_in, stated_by, stated_sum, totals_record};

use crate::totals::Totals;
use layout::records::RECORD_WIDTH;
use layout::{chart_a2, records};
use text::fields;
use text::fields::Columns;

// The sum of two numbers that stand in the same columns of two records.
fn sum_at(a: &[u8; 245], b: &[u8; 245], c: Columns) -> u64
    requires { (1 ≤ c.first) × (c.first ≤ c.last + 1) × (c.last ≤ 245) × (c.last < c.first + 18)
        × (all_digits (columns c.first c.last a.now) ≡ true) × (all_digits (columns c.first c.last b.now) ≡ true) }
    ensures { result ≡ number (columns c.first c.last a.now) + number (columns c.first c.last b.now) }
{
    fields::number_at(a, c) + fields::number_at(b, c)
}

// The totals that two control records state, summed.
pub fn summed_totals(a: &[u8; 245], b: &[u8; 245]) -> Totals
    requires { (has_totals a.now ≡ true) × (has_totals b.now ≡ true) }
    ensures { totals_in result ≡ stated_sum (stated_by a.now) (stated_by b.now) }
{
    Totals {
        tanf_count: sum_at(a, b, chart_a2::TOTAL_TANF),
        non_tanf_count: sum_at(a, b, chart_a2::TOTAL_NON_TANF),
        tanf_amount: sum_at(a, b, chart_a2::AMOUNT_TANF),
        non_tanf_amount: sum_at(a, b, chart_a2::AMOUNT_NON_TANF),
    }
}

// The control record of Chart A-2 that states some totals.
pub fn totals_record(state: &[u8], t: Totals) -> [u8; 245]
    requires { length state.now ≡ 2 }
    ensures { result ≡ totals_record state.now (totals_in t) }
{
    let mut out = [0x40u8; 245];
    fields::put(&mut out, chart_a2::STATE, state);
    fields::put(&mut out, chart_a2::CONTROL, b"\xC3\xE3\xD3");
    fields::put_number(&mut out, chart_a2::TOTAL_TANF, t.tanf_count);
    fields::put_number(&mut out, chart_a2::TOTAL_NON_TANF, t.non_tanf_count);
    fields::put_number(&mut out, chart_a2::AMOUNT_TANF, t.tanf_amount);
    fields::put_number(&mut out, chart_a2::AMOUNT_NON_TANF, t.non_tanf_amount);
    out
}

// How many details of each case type there are.
#[derive(Clone, Copy)]
pub struct CaseCounts {
    pub tanf: u64,
    pub non_tanf: u64,
}

// The counts of a batch whose control record states them rightly: none of its details is read.
pub fn case_counts(batch: &[u8]) -> CaseCounts
    requires { (detail_count batch.now * 245 + 245 ≤ length batch.now) × (has_totals (control_of batch.now) ≡ true)
        × (are_counts_right (control_of batch.now) (details_of batch.now) ≡ true) }
    ensures { (result.tanf ≡ count_of Characters.A (details_of batch.now))
        × (result.non_tanf ≡ count_of Characters.N (details_of batch.now)) }
{
    let d = batch.len() / RECORD_WIDTH - 1;
    let control = records::record_at(batch, d);
    CaseCounts {
        tanf: fields::number_at(&control, chart_a2::TOTAL_TANF),
        non_tanf: fields::number_at(&control, chart_a2::TOTAL_NON_TANF),
    }
}
