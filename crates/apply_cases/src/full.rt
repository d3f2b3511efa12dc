// Runs at the full space: 100 details, 200 rows, 1,000 codes.
ghost use Rattle.std.specs.Prelude.{◌≤◌};

use apply_output::parts::first;
use apply_samples::columns::{place, put_number};
use apply_trials::{records, tried};
use std::io;
use std::rt::Runtime;

// 200 rows, SSN 900000000 to 900000199.
fn put_rows(master: &mut [u8]) {
    for i in 0..200usize {
        let row = records::row(900000000 + i as u64);
        place(master, i * 200, &row);
    }
}

// 100 details of a type, with SSN from one on, and their control record.
fn put_batch(batch: &mut [u8], kind: &[u8], ssn: u64, name: &[u8], dollars: u64)
    requires { (ssn ≤ 999999999) × (dollars ≤ 99999999) }
{
    for i in 0..100usize {
        let rec = records::detail(kind, ssn + i as u64, name, b"JOHN", dollars);
        place(batch, i * 245, &rec);
    }
    let last = records::control(b"OHCTL", 0, 100, 0, 100 * dollars);
    place(batch, 24500, &last);
}

// The codes 000 to 999.
fn put_codes(list: &mut [u8]) {
    for i in 0..1000usize {
        put_number(list, i * 3 + 1, i * 3 + 3, i as u64);
    }
}

// No room for a new row.
fn no_room(rt: &impl Runtime, master: &[u8]) -> io::Result<()> {
    let rec = records::detail(b"AN", 123456789, b"SMITH", b"JOHN", 25);
    let last = records::control(b"OHCTL", 0, 1, 0, 25);
    tried::save(
        rt,
        master,
        &records::batch_of_one(&rec, &last),
        b"",
        b"2007",
    )?;
    tried::run(rt, b"9: 200 rows and a new one", master)
}

// 100 details changed, with as many codes as there is space for.
fn changed(rt: &impl Runtime, master: &[u8]) -> io::Result<()> {
    let mut list = [0u8; 3000];
    put_codes(&mut list);
    let mut batch = [0u8; 24745];
    put_batch(&mut batch, b"MN", 900000000, b"SMITH", 100);
    tried::save(rt, master, &batch, &list, b"2007")?;
    tried::run(rt, b"200 rows, 100 changed, 1,000 codes", master)
}

fn rejected(rt: &impl Runtime, master: &[u8]) -> io::Result<()> {
    let mut batch = [0u8; 24745];
    put_batch(&mut batch, b"MN", 900000100, b"SMYTH", 100);
    tried::save(rt, master, &batch, b"", b"2007")?;
    tried::run(rt, b"200 rows, 100 rejected", master)
}

fn added(rt: &impl Runtime, master: &[u8]) -> io::Result<()> {
    let mut batch = [0u8; 24745];
    put_batch(&mut batch, b"AN", 900000100, b"SMITH", 25);
    tried::save(rt, master, &batch, b"", b"2007")?;
    tried::run(rt, b"100 rows, 100 added: the 200 rows", master)
}

pub fn space(rt: &impl Runtime) -> io::Result<()> {
    let mut master = [0u8; 40000];
    put_rows(&mut master);
    no_room(rt, &master)?;
    changed(rt, &master)?;
    rejected(rt, &master)?;
    added(rt, first(&master, 20000))
}
