// Small runs that are carried out.
use apply_samples::columns::place;
use apply_trials::{records, tried};
use std::io;
use std::rt::Runtime;

// A control record alone.
fn alone(rt: &impl Runtime, start: &[u8]) -> io::Result<()> {
    let batch = records::control(start, 0, 0, 0, 0);
    tried::save(rt, b"", &batch, b"", b"2007")?;
    tried::run(rt, b"a control record alone", b"")
}

pub fn control_records(rt: &impl Runtime) -> io::Result<()> {
    alone(rt, b"OHCTL")?;
    alone(rt, b"AZCTL")?;
    alone(rt, b"NJCTL")?;
    alone(rt, b"RICTL")?;
    alone(rt, b"SCCTL")
}

// The batch with a record at a place.
fn with(mut batch: [u8; 1225], at: usize, rec: [u8; 245]) -> [u8; 1225] {
    place(&mut batch, at, &rec);
    batch
}

// Two A, then M of neither case type.
fn with_accepted(batch: [u8; 1225]) -> [u8; 1225] {
    let john = records::detail(b"AA", 123456789, b"SMITH", b"JOHN", 25);
    let jack = records::detail(b"AA", 123456789, b"SMITH", b"JACK", 30);
    let neither = records::detail(b"MX", 123456789, b"SMITH", b"", 40);
    with(with(with(batch, 0, john), 245, jack), 490, neither)
}

// Accepted, warned, of neither case type, rejected.
pub fn counts(rt: &impl Runtime) -> io::Result<()> {
    let batch = with_accepted([0u8; 1225]);
    let rejected = records::detail(b"MA", 123456789, b"SMYTH", b"", 100);
    let last = records::control(b"OHCTL", 3, 0, 155, 0);
    let batch = with(with(batch, 735, rejected), 980, last);
    tried::save(rt, b"", &batch, b"", b"2007")?;
    tried::run(
        rt,
        b"two accepted, one of them warned, one rejected, one of neither case type",
        b"",
    )
}

// Two details on the row of SMITH.
fn two(rt: &impl Runtime, name: &[u8], a: &[u8; 245], b: &[u8; 245]) -> io::Result<()> {
    let row = records::row(123456789);
    let last = records::control(b"OHCTL", 0, 2, 0, 100);
    let batch = records::batch_of_two(a, b, &last);
    tried::save(rt, &row, &batch, b"", b"2007")?;
    tried::run(rt, name, &row)
}

// A change of the name to SMYTH, and M before or behind it.
fn change_and(
    rt: &impl Runtime,
    name: &[u8],
    change_first: bool,
    last_name: &[u8],
) -> io::Result<()> {
    let change = records::detail(b"BN", 123456789, b"SMYTH", b"JOHN", 0);
    let other = records::detail(b"MN", 123456789, last_name, b"", 100);
    if change_first {
        two(rt, name, &change, &other)
    } else {
        two(rt, name, &other, &change)
    }
}

// A new name counts wherever its B stands; the old one no more behind it.
pub fn names(rt: &impl Runtime) -> io::Result<()> {
    change_and(rt, b"B to SMYTH, then M of SMYTH", true, b"SMYTH")?;
    change_and(rt, b"M of SMYTH, then B to SMYTH", false, b"SMYTH")?;
    change_and(rt, b"B to SMYTH, then M of SMITH", true, b"SMITH")?;
    change_and(rt, b"M of SMITH, then B to SMYTH", false, b"SMITH")
}
