// Reconciliation.
ghost use Rattle.std.specs.Prelude.{◌≡◌, [], ◌∷◌, ◌++◌, ◌+◌, ◌*◌, ◌≤◌, ◌<◌, length};
ghost use Rattle.text.specs.Characters;
ghost use Rattle.text.specs.Fields.{columns, placed, Inside, digit_field, spaces};
ghost use Rattle.text.specs.Blocks.{blocks, Holds};
ghost use Rattle.layout.specs.Limits.{max_rows};
ghost use Rattle.casemaster.specs.Master.{rows_of};
ghost use Rattle.reconciliation.specs.Parts.{with_identity, with_case, with_end};
ghost use Rattle.reconciliation.specs.Reconcile.{is_reported, RCT, rec_record, rec_records, reported_of, reconciled_as, reconcile_outcome};

use answers::refusal::Refusal;
use casemaster::master::ROW_WIDTH;
use casemaster::{refusals, row};
use dates::calendar;
use exclusionsets::exclusions;
use layout::records::RECORD_WIDTH;
use layout::{chart_06, chart_07, key, states};
use text::fields::Columns;
use text::{counting, fields};

// How many cases are reported, and of each case type.
#[derive(Clone, Copy)]
struct Cases {
    total: usize,
    tanf: usize,
    non_tanf: usize,
}

// A first name cut to ten.
const FIRST_NAME_CUT: Columns = Columns {
    first: 51,
    last: 60,
};

// The notice hold and the passport action of a REC record, which stay blank.
const HOLD_AND_ACTION: Columns = Columns {
    first: 80,
    last: 81,
};

// Whether a row is live and of that state.
fn is_reported(row: &[u8], state: &[u8]) -> bool
    requires { length row.now ≡ 200 }
    ensures { result ≡ is_reported state.now row.now }
{
    row::is_live(row) & fields::same(fields::field(row, row::STATE), state)
}

// Counts the reported cases of the first n rows.
fn count_cases(m: &[u8], n: usize, state: &[u8]) -> Cases
    requires { n * 200 ≤ length m.now }
    ensures total_value { result.total ≡ length (rec_records state.now (rows_of n m.now)) }
    ensures tanf_value { result.tanf ≡ reported_of Characters.A state.now (rows_of n m.now) }
    ensures non_tanf_value { result.non_tanf ≡ reported_of Characters.N state.now (rows_of n m.now) }
{
    let (rows, _) = m.as_chunks::<ROW_WIDTH>();
    let mut total: usize = 0;
    let mut tanf: usize = 0;
    let mut non_tanf: usize = 0;
    for row in &rows[..n] {
        let case_type = row[11];
        let reported = is_reported(row, state);
        total += counting::one_if(reported);
        tanf += counting::one_if(reported & (case_type == key::TANF));
        non_tanf += counting::one_if(reported & (case_type == key::NON_TANF));
    }
    Cases {
        total,
        tanf,
        non_tanf,
    }
}

// Copies at most twenty columns of a row into as many of a record. By way of an array: from slice to slice they would go byte by byte.
fn copy_field(rec: &mut [u8], to: Columns, row: &[u8], from: Columns)
    requires { (Inside to.first to.last rec.old)
        × (Inside from.first from.last row.now) × (to.last + from.first ≡ from.last + to.first) × (to.last < to.first + 20) }
    ensures { rec.new ≡ placed to.first to.last (columns from.first from.last row.now) rec.old }
{
    let field = fields::field(row, from);
    let width = field.len();
    let mut bytes = [0u8; 20];
    fields::copy_in(&mut bytes, 0, field);
    fields::put(rec, to, &bytes[0..width]);
}

// The front of a REC record: who the case is. REC goes by way of an array too: of a constant the compiler can't know that the record
// doesn't lie over it.
fn put_identity(rec: &mut [u8], row: &[u8])
    requires { (length rec.old ≡ 245) × (length row.now ≡ 200) }
    ensures { rec.new ≡ with_identity row.now rec.old }
{
    let identifier = [0xD9, 0xC5, 0xC3];
    fields::put(rec, chart_06::IDENTIFIER, &identifier);
    copy_field(rec, chart_06::STATE, row, row::STATE);
    copy_field(rec, chart_06::LOCAL_CODE, row, row::LOCAL_CODE);
    copy_field(rec, chart_06::SSN, row, row::SSN);
    copy_field(rec, chart_06::CASE_ID, row, row::CASE_ID);
}

// Its middle: names, arrearage, case type and date.
fn put_case(rec: &mut [u8], row: &[u8])
    requires { (length rec.old ≡ 245) × (length row.now ≡ 200) }
    ensures { rec.new ≡ with_case row.now rec.old }
{
    copy_field(rec, chart_06::LAST_NAME, row, row::LAST_NAME);
    copy_field(rec, chart_06::FIRST_NAME, row, FIRST_NAME_CUT);
    copy_field(rec, chart_06::ARREARAGE, row, row::ARREARAGE);
    copy_field(rec, chart_06::CASE_TYPE, row, row::CASE_TYPE);
    copy_field(rec, chart_06::NOTICE_DATE, row, row::DATE_ISSUED);
}

// Its end: exclusions, and blank columns before and behind them.
fn put_end(rec: &mut [u8], row: &[u8])
    requires { (length rec.old ≡ 245) × (length row.now ≡ 200) }
    ensures { rec.new ≡ with_end row.now rec.old }
{
    fields::put(rec, HOLD_AND_ACTION, b"\x40\x40");
    let names = exclusions::exclusion_columns(row[194]);
    fields::put(rec, chart_06::EXCLUSIONS, &names);
    let filler = [0x40u8; 140];
    fields::put(rec, chart_06::FILLER, &filler);
}

// Writes the REC record of a row, each column once.
fn fill_rec(rec: &mut [u8], row: &[u8])
    requires { (length rec.old ≡ 245) × (length row.now ≡ 200) }
    ensures { rec.new ≡ rec_record row.now }
{
    put_identity(rec, row);
    put_case(rec, row);
    put_end(rec, row);
}

// The RCT record.
fn rct_record(state: &[u8], date: &[u8], cases: Cases) -> [u8; 245]
    requires { (length state.now ≡ 2) × (length date.now ≡ 8) }
    ensures { result ≡ RCT ++ state.now ++ digit_field 9 cases.tanf ++ digit_field 9 cases.non_tanf
        ++ digit_field 9 cases.total ++ date.now ++ spaces 205 }
{
    let mut out = [0x40u8; 245];
    fields::put(&mut out, chart_07::IDENTIFIER, b"\xD9\xC3\xE3");
    fields::put(&mut out, chart_07::STATE, state);
    fields::put_number(&mut out, chart_07::TANF_CASES, cases.tanf as u64);
    fields::put_number(&mut out, chart_07::NON_TANF_CASES, cases.non_tanf as u64);
    fields::put_number(&mut out, chart_07::TOTAL_CASES, cases.total as u64);
    fields::put(&mut out, chart_07::EXTRACT_DATE, date);
    out
}

// Writes the REC record of a row behind k records where the row is reported, and returns how many records there are.
fn put_record(out: &mut [u8], k: usize, row: &[u8], state: &[u8]) -> usize
    requires { (length row.now ≡ 200) × ((k + length (rec_records state.now (row.now ∷ []))) * 245 ≤ length out.old) }
    ensures { Holds 245 out.old out.new result
        (blocks 245 k out.old ++ rec_records state.now (row.now ∷ [])) }
{
    if !is_reported(row, state) {
        return k;
    }
    let at = k * RECORD_WIDTH;
    let end = at + RECORD_WIDTH;
    fill_rec(&mut out[at..end], row);
    k + 1
}

// Writes the REC records of the reported cases among the first n rows, and returns how many there are.
fn put_records(out: &mut [u8], m: &[u8], n: usize, state: &[u8]) -> usize
    requires { (n * 200 ≤ length m.now) × (length (rec_records state.now (rows_of n m.now)) * 245 ≤ length out.old) }
    ensures { Holds 245 out.old out.new result (rec_records state.now (rows_of n m.now)) }
{
    let (rows, _) = m.as_chunks::<ROW_WIDTH>();
    let mut k: usize = 0;
    for row in &rows[..n] {
        k = put_record(out, k, row, state);
    }
    k
}

// Reconciliation for a state and a date: writes a REC record per live row of that state and RCT behind them, and
// answers how many REC records there are, or refuses.
pub fn reconcile(
    master: &[u8],
    rows: usize,
    state: &[u8],
    date: &[u8],
    out: &mut [u8],
) -> Result<usize, Refusal>
    ensures { reconciled_as result out.new
        ≡ reconcile_outcome max_rows master.now rows state.now date.now out.old }
{
    refusals::master_refusal(master, rows)?;
    if !states::is_state(state) {
        return Err(Refusal::WrongState);
    }
    let right = calendar::is_date(date);
    if !right {
        return Err(Refusal::WrongDate);
    }
    let cases = count_cases(master, rows, state);
    if out.len() / RECORD_WIDTH <= cases.total {
        return Err(Refusal::ShortOutput);
    }
    let records = put_records(out, master, rows, state);
    let control = rct_record(state, date, cases);
    fields::copy_in(out, records * RECORD_WIDTH, &control);
    Ok(records)
}
