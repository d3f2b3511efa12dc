// Two batches into one: the first's details, the second's, and a control record with summed totals.
ghost use Rattle.std.specs.Prelude.{◌≡◌, ◌+◌, ◌*◌, ◌≤◌, length, take};
ghost use Rattle.text.specs.Blocks.{over, spliced};
ghost use Rattle.answers.specs.Refusal.{number_in};
ghost use Rattle.layout.specs.Limits.{max_rows};
ghost use Rattle.layout.specs.Batch.{control_of};
ghost use Rattle.batchfile.specs.Refusals.{batch_refusal};
ghost use Rattle.merging.specs.Merge.{merged_control, merged_batch, merged_count, refusal32, merge_refusal, merge_call, merged_as, IsMerge};

use answers::refusal::Refusal;
use batchfile::{refusals, stated};
use layout::limits::MAX_RECORDS;
use layout::records::RECORD_WIDTH;
use layout::{chart_a2, records};
use text::fields;

// The highest number of eleven digits.
const MAX_AMOUNT: u64 = 99999999999;

// The control record of a batch.
fn control_of(batch: &[u8]) -> [u8; 245]
    requires { batch_refusal max_rows batch.now 0 ≡ 0 }
    ensures { result ≡ control_of batch.now }
{
    records::record_at(batch, batch.len() / RECORD_WIDTH - 1)
}

// How many records two batches have, merged.
fn merged_count(first: &[u8], second: &[u8]) -> usize
    requires { (batch_refusal max_rows first.now 0 ≡ 0) × (batch_refusal max_rows second.now 0 ≡ 0) }
    ensures { result ≡ merged_count first.now second.now }
{
    first.len() / RECORD_WIDTH + second.len() / RECORD_WIDTH - 1
}

// Refusal 32: two different states, too many details, or an amount total above eleven digits.
fn cannot_merge(first: &[u8], second: &[u8]) -> bool
    requires { (batch_refusal max_rows first.now 0 ≡ 0) × (batch_refusal max_rows second.now 0 ≡ 0) }
    ensures { result ≡ refusal32 max_rows first.now second.now }
{
    let a = control_of(first);
    let b = control_of(second);
    let t = stated::summed_totals(&a, &b);
    let same = fields::same(
        fields::field(&a, chart_a2::STATE),
        fields::field(&b, chart_a2::STATE),
    );
    let many = MAX_RECORDS < merged_count(first, second);
    let above = (MAX_AMOUNT < t.tanf_amount) | (MAX_AMOUNT < t.non_tanf_amount);
    !same | many | above
}

// The first refusal that holds.
fn first_refusal(first: &[u8], second: &[u8], out: &[u8]) -> Result<(), Refusal>
    ensures { number_in result ≡ merge_refusal max_rows first.now second.now out.now }
{
    refusals::batch_refusal(first)?;
    refusals::batch_refusal(second)?;
    if cannot_merge(first, second) {
        return Err(Refusal::CannotMerge);
    }
    if out.len() < merged_count(first, second) * RECORD_WIDTH {
        return Err(Refusal::ShortBatch);
    }
    Ok(())
}

// The control record of the merged batch.
fn merged_control(first: &[u8], second: &[u8]) -> [u8; 245]
    requires { (batch_refusal max_rows first.now 0 ≡ 0) × (batch_refusal max_rows second.now 0 ≡ 0) }
    ensures { result ≡ merged_control first.now second.now }
{
    let a = control_of(first);
    let b = control_of(second);
    let t = stated::summed_totals(&a, &b);
    stated::totals_record(fields::field(&a, chart_a2::STATE), t)
}

// Copies the first n records of a batch to the output, from place `to` on.
fn copy_records(out: &mut [u8], to: usize, batch: &[u8], n: usize)
    requires { ((to + n) * 245 ≤ length out.old) × (n * 245 ≤ length batch.now) }
    ensures { out.new ≡ spliced out.old (to * 245) (take (n * 245) batch.now) }
{
    fields::copy_in(out, to * RECORD_WIDTH, &batch[..n * RECORD_WIDTH]);
}

// Writes the merged batch at the front of the output.
fn write_merged(first: &[u8], second: &[u8], out: &mut [u8])
    requires { merge_refusal max_rows first.now second.now out.old ≡ 0 }
    ensures { out.new ≡ over (merged_batch first.now second.now) out.old }
{
    let control = merged_control(first, second);
    let a = first.len() / RECORD_WIDTH - 1;
    let b = second.len() / RECORD_WIDTH - 1;
    copy_records(out, 0, first, a);
    copy_records(out, a, second, b);
    fields::copy_in(out, (a + b) * RECORD_WIDTH, &control);
}

// Merges two batches into one, and answers how many records it has.
pub fn merge(first: &[u8], second: &[u8], out: &mut [u8]) -> Result<usize, Refusal>
    ensures { IsMerge (merge_call first.now second.now out.old) (merged_as result out.new) }
{
    first_refusal(first, second, out)?;
    write_merged(first, second, out);
    Ok(merged_count(first, second))
}
