// The records C, L, R and M of a row, with the field of a wanted row.
ghost use Rattle.std.specs.Prelude.{◌≡◌, length};
ghost use Rattle.layout.specs.TransactionType.{type_byte};
ghost use Rattle.caserecords.specs.Records.{head_of, case_id_record, local_code_record, exclusion_record, arrearage_record};

use casemaster::row;
use exclusionsets::exclusions;
use layout::chart_a1;
use layout::record::TransactionType;
use text::fields;

// A record with the key, a type and the stored last name, else blank.
fn head(transaction_type: TransactionType, row: &[u8]) -> [u8; 245]
    requires { length row.now ≡ 200 }
    ensures { result ≡ head_of (type_byte transaction_type) row.now }
{
    let mut rec = [0x40u8; 245];
    fields::copy(&mut rec, chart_a1::SUBMITTING_STATE, row, row::STATE);
    fields::copy(&mut rec, chart_a1::SSN, row, row::SSN);
    fields::copy(&mut rec, chart_a1::LAST_NAME, row, row::LAST_NAME);
    let t = [u8::from(transaction_type)];
    fields::put(&mut rec, chart_a1::TRANSACTION_TYPE, &t);
    fields::copy(&mut rec, chart_a1::CASE_TYPE, row, row::CASE_TYPE);
    rec
}

// C: the case ID.
pub fn case_id_record(row: &[u8], wanted: &[u8]) -> [u8; 245]
    requires { (length row.now ≡ 200) × (length wanted.now ≡ 200) }
    ensures { result ≡ case_id_record row.now wanted.now }
{
    let mut rec = head(TransactionType::CaseId, row);
    fields::copy(&mut rec, chart_a1::CASE_ID, wanted, row::CASE_ID);
    rec
}

// L: the local code.
pub fn local_code_record(row: &[u8], wanted: &[u8]) -> [u8; 245]
    requires { (length row.now ≡ 200) × (length wanted.now ≡ 200) }
    ensures { result ≡ local_code_record row.now wanted.now }
{
    let mut rec = head(TransactionType::LocalCode, row);
    fields::copy(&mut rec, chart_a1::LOCAL_CODE, wanted, row::LOCAL_CODE);
    rec
}

// R: the exclusion set.
pub fn exclusion_record(row: &[u8], wanted: &[u8]) -> [u8; 245]
    requires { (length row.now ≡ 200) × (length wanted.now ≡ 200) }
    ensures { result ≡ exclusion_record row.now wanted.now }
{
    let mut rec = head(TransactionType::Exclude, row);
    let field = exclusions::exclusion_field(wanted[194]);
    fields::put(&mut rec, chart_a1::EXCLUSIONS, &field);
    rec
}

// M: the arrearage.
pub fn arrearage_record(row: &[u8], wanted: &[u8]) -> [u8; 245]
    requires { (length row.now ≡ 200) × (length wanted.now ≡ 200) }
    ensures { result ≡ arrearage_record row.now wanted.now }
{
    let mut rec = head(TransactionType::Modify, row);
    fields::copy(&mut rec, chart_a1::ARREARAGE, wanted, row::ARREARAGE);
    rec
}
