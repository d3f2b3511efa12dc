// What a record without an error does to its row, type by type, in place.
ghost use Rattle.std.specs.Prelude.{◌≡◌, ◌+◌, length};
ghost use Rattle.std.proofs.Math.Option.{some};
ghost use Rattle.text.specs.Fields.{placed};
ghost use Rattle.casemaster.specs.Row.{with_zero_cents};
ghost use Rattle.onecase.specs.Copies.{InRow, InRecord, copied, copied_unless_blank, with_exclusions, with_names, fresh_end};
ghost use Rattle.onecase.specs.Machine.{added, changed};
ghost use Rattle.onecase.specs.Changes.{exclusion_byte, added_local_code, fresh_row, recertified, renamed, reidentified, deleted, relocated, amended, excluded, paid, transferred, readdressed};

use casemaster::row;
use exclusionsets::exclusions;
use layout::locals::LocalCodes;
use layout::record::TransactionType;
use layout::{chart_a1, record};
use text::fields;
use text::fields::Columns;

// Copies the columns `from` of the record into the row's columns `to`, which are as many.
fn copy(row: &mut [u8], to: Columns, rec: &[u8; 245], from: Columns)
    requires { (length row.old ≡ 200) × InRow to × InRecord from × (to.last + from.first ≡ from.last + to.first) }
    ensures { row.new ≡ copied to rec.now from row.old }
{
    fields::copy(row, to, rec, from);
}

// The same, unless those columns of the record are blank.
fn copy_unless_blank(row: &mut [u8], to: Columns, rec: &[u8; 245], from: Columns)
    requires { (length row.old ≡ 200) × InRow to × InRecord from × (to.last + from.first ≡ from.last + to.first) }
    ensures { row.new ≡ copied_unless_blank to rec.now from row.old }
{
    if !fields::is_blank(fields::field(rec, from)) {
        copy(row, to, rec, from);
    }
}

// Writes the bytes into the row's columns `to`, which are as many.
fn write(row: &mut [u8], to: Columns, bytes: &[u8])
    requires { (length row.old ≡ 200) × InRow to × (to.last + 1 ≡ to.first + length bytes.now) }
    ensures { row.new ≡ placed to.first to.last bytes.now row.old }
{
    fields::put(row, to, bytes);
}

// The exclusion set of a record as one byte.
fn exclusion_byte(rec: &[u8; 245]) -> [u8; 1]
    ensures { result ≡ exclusion_byte rec.now }
{
    [exclusions::read_exclusions(fields::field(rec, chart_a1::EXCLUSIONS)).unwrap_or(0)]
}

// Writes the local code that an A stores: as sent if listed, else 000.
fn put_local_code(row: &mut [u8], rec: &[u8; 245], locals: LocalCodes)
    requires { length row.old ≡ 200 }
    ensures { row.new ≡ placed 13 15 (added_local_code locals.entry.list.now rec.now) row.old }
{
    if locals.contains(fields::field(rec, chart_a1::LOCAL_CODE)) {
        copy(row, row::LOCAL_CODE, rec, chart_a1::LOCAL_CODE);
    } else {
        write(row, row::LOCAL_CODE, b"\xF0\xF0\xF0");
    }
}

// Writes 00 for the cents.
fn zero_cents(row: &mut [u8])
    requires { length row.old ≡ 200 }
    ensures { row.new ≡ with_zero_cents row.old }
{
    write(row, row::CENTS, b"\xF0\xF0");
}

// What an A writes first: 00 for the cents, and the exclusion set.
fn put_exclusions(row: &mut [u8], rec: &[u8; 245])
    requires { length row.old ≡ 200 }
    ensures { row.new ≡ with_exclusions rec.now row.old }
{
    zero_cents(row);
    let set = exclusion_byte(rec);
    write(row, row::EXCLUSIONS, &set);
}

// And then: the arrearage and both names.
fn put_names(row: &mut [u8], rec: &[u8; 245])
    requires { length row.old ≡ 200 }
    ensures { row.new ≡ with_names rec.now row.old }
{
    copy(row, row::ARREARAGE, rec, chart_a1::ARREARAGE);
    copy(row, row::FIRST_NAME, rec, chart_a1::FIRST_NAME);
    copy(row, row::LAST_NAME, rec, chart_a1::LAST_NAME);
}

// A fresh row's end, from the payment fields on, and spaces before it.
fn start_fresh(row: &mut [u8], rec: &[u8; 245])
    requires { length row.old ≡ 200 }
    ensures { row.new ≡ fresh_end rec.now }
{
    fields::copy_in(row, 0, &[0x40u8; 200]);
    put_exclusions(row, rec);
    copy(row, row::DATE_ISSUED, rec, chart_a1::DATE_ISSUED);
    copy(row, row::ADDRESS, rec, chart_a1::ADDRESS);
    write(
        row,
        row::PAYMENT_FIELDS,
        b"\xF0\xF0\xF0\xF0\xF0\xF0\xF0\xF0\xF0\xF0\xF0\xF0",
    );
}

// A with a deleted row: a fresh one over it.
pub fn make_fresh(row: &mut [u8], rec: &[u8; 245], locals: LocalCodes)
    requires { length row.old ≡ 200 }
    ensures { row.new ≡ fresh_row locals.entry.list.now rec.now }
{
    start_fresh(row, rec);
    put_names(row, rec);
    copy(row, row::CASE_ID, rec, chart_a1::CASE_ID);
    put_local_code(row, rec, locals);
    let key = record::record_key(rec);
    write(row, row::KEY, &key);
}

// A with no row: a fresh one.
pub fn fresh_row(rec: &[u8; 245], locals: LocalCodes) -> [u8; 200]
    ensures { result ≡ fresh_row locals.entry.list.now rec.now }
{
    let mut row = [0x40u8; 200];
    make_fresh(&mut row, rec, locals);
    row
}

// A on a live row.
pub fn recertify(row: &mut [u8], rec: &[u8; 245], locals: LocalCodes)
    requires { length row.old ≡ 200 }
    ensures { row.new ≡ recertified locals.entry.list.now rec.now row.old }
{
    put_exclusions(row, rec);
    copy_unless_blank(row, row::DATE_ISSUED, rec, chart_a1::DATE_ISSUED);
    copy_unless_blank(row, row::ADDRESS, rec, chart_a1::ADDRESS);
    put_names(row, rec);
    copy_unless_blank(row, row::CASE_ID, rec, chart_a1::CASE_ID);
    put_local_code(row, rec, locals);
}

// A on a row: recertified where it is live, else made fresh.
#[tactic(auto, unfolding(crate::specs::Machine::added))]
pub fn add_to(row: &mut [u8; 200], rec: &[u8; 245], locals: LocalCodes)
    ensures { row.new ≡ added locals.entry.list.now rec.now (some row.old) }
{
    if row::is_live(row) {
        recertify(row, rec, locals);
    } else {
        make_fresh(row, rec, locals);
    }
}

// B: both names.
fn rename(row: &mut [u8], rec: &[u8; 245])
    requires { length row.old ≡ 200 }
    ensures { row.new ≡ renamed rec.now row.old }
{
    copy(row, row::LAST_NAME, rec, chart_a1::LAST_NAME);
    copy(row, row::FIRST_NAME, rec, chart_a1::FIRST_NAME);
}

// C: the case ID.
fn reidentify(row: &mut [u8], rec: &[u8; 245])
    requires { length row.old ≡ 200 }
    ensures { row.new ≡ reidentified rec.now row.old }
{
    copy(row, row::CASE_ID, rec, chart_a1::CASE_ID);
}

// D: arrearage zero, deleted.
fn delete(row: &mut [u8])
    requires { length row.old ≡ 200 }
    ensures { row.new ≡ deleted row.old }
{
    zero_cents(row);
    write(row, row::ARREARAGE, b"\xF0\xF0\xF0\xF0\xF0\xF0\xF0\xF0");
    write(row, row::STATUS, b"\xC4");
}

// L: the local code, blank becoming 000.
fn relocate(row: &mut [u8], rec: &[u8; 245])
    requires { length row.old ≡ 200 }
    ensures { row.new ≡ relocated rec.now row.old }
{
    if fields::is_blank(fields::field(rec, chart_a1::LOCAL_CODE)) {
        write(row, row::LOCAL_CODE, b"\xF0\xF0\xF0");
    } else {
        copy(row, row::LOCAL_CODE, rec, chart_a1::LOCAL_CODE);
    }
}

// M: the arrearage; zero also deletes.
fn amend(row: &mut [u8], rec: &[u8; 245])
    requires { length row.old ≡ 200 }
    ensures { row.new ≡ amended rec.now row.old }
{
    zero_cents(row);
    copy(row, row::ARREARAGE, rec, chart_a1::ARREARAGE);
    if fields::is_zero(fields::field(rec, chart_a1::ARREARAGE)) {
        write(row, row::STATUS, b"\xC4");
    }
}

// R: the exclusion set.
fn exclude(row: &mut [u8], rec: &[u8; 245])
    requires { length row.old ≡ 200 }
    ensures { row.new ≡ excluded rec.now row.old }
{
    let set = exclusion_byte(rec);
    write(row, row::EXCLUSIONS, &set);
}

// S: the payment year and amount.
fn pay(row: &mut [u8], rec: &[u8; 245])
    requires { length row.old ≡ 200 }
    ensures { row.new ≡ paid rec.now row.old }
{
    copy(row, row::PAYMENT_YEAR, rec, chart_a1::PROCESS_YEAR);
    copy(row, row::PAYMENT, rec, chart_a1::ARREARAGE);
}

// T: the transfer state, and the transfer local code unless blank.
fn transfer(row: &mut [u8], rec: &[u8; 245])
    requires { length row.old ≡ 200 }
    ensures { row.new ≡ transferred rec.now row.old }
{
    copy(row, row::TRANSFER_STATE, rec, chart_a1::TRANSFER_STATE);
    copy_unless_blank(
        row,
        row::TRANSFER_LOCAL_CODE,
        rec,
        chart_a1::TRANSFER_LOCAL_CODE,
    );
}

// Z: the address.
fn readdress(row: &mut [u8], rec: &[u8; 245])
    requires { length row.old ≡ 200 }
    ensures { row.new ≡ readdressed rec.now row.old }
{
    copy(row, row::ADDRESS, rec, chart_a1::ADDRESS);
}

// A record of any type but A on its row.
#[tactic(auto, unfolding(crate::specs::Machine::changed))]
pub fn change(row: &mut [u8], rec: &[u8; 245])
    requires { length row.old ≡ 200 }
    ensures { row.new ≡ changed rec.now row.old }
{
    match record::type_of(rec) {
        Some(TransactionType::Rename) => rename(row, rec),
        Some(TransactionType::CaseId) => reidentify(row, rec),
        Some(TransactionType::Delete) => delete(row),
        Some(TransactionType::LocalCode) => relocate(row, rec),
        Some(TransactionType::Modify) => amend(row, rec),
        Some(TransactionType::Exclude) => exclude(row, rec),
        Some(TransactionType::Payment) => pay(row, rec),
        Some(TransactionType::Transfer) => transfer(row, rec),
        Some(TransactionType::Address | TransactionType::Add) | None => readdress(row, rec),
    }
}
