// Rows and records of the cases: SMITH, 123456789.
use apply_samples::columns::{place, put, put_number};

// A detail: type and case type, SSN, last and first name, dollars, else blank.
pub fn detail(kind: &[u8], ssn: u64, name: &[u8], first_name: &[u8], dollars: u64) -> [u8; 245] {
    let mut rec = [0x40u8; 245];
    put(&mut rec, 1, b"OH");
    put_number(&mut rec, 6, 14, ssn);
    put(&mut rec, 30, name);
    put(&mut rec, 50, first_name);
    put_number(&mut rec, 65, 72, dollars);
    put(&mut rec, 73, kind);
    rec
}

// A control record: state and word, then counts and dollars of TANF and Non-TANF.
pub fn control(
    start: &[u8],
    tanf: u64,
    non_tanf: u64,
    tanf_dollars: u64,
    dollars: u64,
) -> [u8; 245] {
    let mut rec = [0x40u8; 245];
    put(&mut rec, 1, start);
    put_number(&mut rec, 6, 14, tanf);
    put_number(&mut rec, 15, 23, non_tanf);
    put_number(&mut rec, 24, 34, tanf_dollars);
    put_number(&mut rec, 35, 45, dollars);
    rec
}

// A live row of 25 dollars.
pub fn row(ssn: u64) -> [u8; 200] {
    let mut row = [0x40u8; 200];
    put(&mut row, 1, b"OH");
    put_number(&mut row, 3, 11, ssn);
    put(&mut row, 12, b"N000");
    put(&mut row, 31, b"SMITH");
    put(&mut row, 51, b"JOHN");
    put_number(&mut row, 66, 73, 25);
    put_number(&mut row, 79, 90, 0);
    put_number(&mut row, 197, 198, 0);
    row[194] = 0x00;
    row
}

// One detail and a control record.
pub fn batch_of_one(detail: &[u8; 245], control: &[u8; 245]) -> [u8; 490] {
    let mut batch = [0u8; 490];
    place(&mut batch, 0, detail);
    place(&mut batch, 245, control);
    batch
}

// Two details and a control record.
pub fn batch_of_two(a: &[u8; 245], b: &[u8; 245], control: &[u8; 245]) -> [u8; 735] {
    let mut batch = [0u8; 735];
    place(&mut batch, 0, a);
    place(&mut batch, 245, b);
    place(&mut batch, 490, control);
    batch
}

// M of 100 dollars, with its control record.
pub fn modify() -> [u8; 490] {
    let rec = detail(b"MN", 123456789, b"SMITH", b"", 100);
    let last = control(b"OHCTL", 0, 1, 0, 100);
    batch_of_one(&rec, &last)
}
