// The refusals, each by itself and with a later fault behind it.
use apply_output::parts::first;
use apply_samples::columns::{place, put};
use apply_samples::files::save;
use apply_trials::{records, tried};
use std::rt::Runtime;
use std::{fs, io};

// A file that is missing.
fn missing(rt: &impl Runtime, name: &[u8], path: &str) -> io::Result<()> {
    tried::save_right(rt)?;
    fs::remove_file(rt, path)?;
    tried::run_right(rt, name)
}

// A file that can't be read: it is a folder.
fn unreadable(rt: &impl Runtime) -> io::Result<()> {
    tried::save_right(rt)?;
    fs::remove_file(rt, "master.bin")?;
    fs::create_dir(rt, "master.bin")?;
    tried::run(rt, b"0: master.bin that can't be read", b"")?;
    fs::remove_dir(rt, "master.bin")
}

// Files one byte beyond the space.
fn long(rt: &impl Runtime) -> io::Result<()> {
    let bytes = [0x40u8; 40001];
    tried::save_right(rt)?;
    save(rt, "master.bin", &bytes)?;
    tried::run(rt, b"0: master.bin of 40,001 bytes", &bytes)?;
    tried::save_right(rt)?;
    save(rt, "batch.bin", &bytes[0..24746])?;
    tried::run_right(rt, b"0: batch.bin of 24,746 bytes")?;
    tried::save_right(rt)?;
    save(rt, "locals.bin", &bytes[0..3001])?;
    tried::run_right(rt, b"0: locals.bin of 3,001 bytes")
}

pub fn space(rt: &impl Runtime) -> io::Result<()> {
    missing(rt, b"0: master.bin missing", "master.bin")?;
    missing(rt, b"0: batch.bin missing", "batch.bin")?;
    missing(rt, b"0: locals.bin missing", "locals.bin")?;
    missing(rt, b"0: year.txt missing", "year.txt")?;
    unreadable(rt)?;
    long(rt)?;
    tried::save_right(rt)?;
    save(rt, "year.txt", b"07")?;
    fs::remove_file(rt, "locals.bin")?;
    tried::run_right(rt, b"0 before 1")
}

fn year(rt: &impl Runtime, name: &[u8], text: &[u8]) -> io::Result<()> {
    tried::save_right(rt)?;
    save(rt, "year.txt", text)?;
    tried::run_right(rt, name)
}

// Texts that aren't four digits.
fn other_texts(rt: &impl Runtime) -> io::Result<()> {
    year(rt, b"1: year.txt empty", b"")?;
    year(rt, b"1: year.txt 200", b"200")?;
    year(rt, b"1: year.txt 20070", b"20070")?;
    year(rt, b"1: year.txt 2007 and a line feed", b"2007\n")?;
    year(rt, b"1: year.txt 20O7", b"20O7")
}

// Bytes beside the digits, and the first and the last year.
fn limits_of_years(rt: &impl Runtime) -> io::Result<()> {
    year(rt, b"1: year.txt /007", b"/007")?;
    year(rt, b"1: year.txt :007", b":007")?;
    year(rt, b"1: year.txt 1899", b"1899")?;
    year(rt, b"year.txt 1900", b"1900")?;
    year(rt, b"year.txt 9999", b"9999")
}

pub fn years(rt: &impl Runtime) -> io::Result<()> {
    other_texts(rt)?;
    limits_of_years(rt)?;
    tried::save_right(rt)?;
    save(rt, "year.txt", b"1899")?;
    save(rt, "locals.bin", b"1")?;
    tried::run_right(rt, b"1 before 2")
}

// A list of codes, given in ASCII.
fn list(rt: &impl Runtime, name: &[u8], text: &[u8; 6]) -> io::Result<()> {
    let mut codes = [0x40u8; 6];
    put(&mut codes, 1, text);
    tried::save_right(rt)?;
    save(rt, "locals.bin", &codes)?;
    tried::run_right(rt, name)
}

pub fn lists(rt: &impl Runtime) -> io::Result<()> {
    list(rt, b"2: codes 002 001", b"002001")?;
    list(rt, b"2: codes 001 001", b"001001")?;
    list(rt, b"2: codes 001 00A", b"00100A")?;
    list(rt, b"codes 001 002", b"001002")?;
    tried::save_right(rt)?;
    save(rt, "locals.bin", b"\xF0\xF0")?;
    tried::run_right(rt, b"2: a list of two bytes")?;
    save(rt, "master.bin", b"\x40")?;
    tried::run(rt, b"2 before 3", b"\x40")
}

// A master of the first n bytes of some rows.
fn master(rt: &impl Runtime, name: &[u8], rows: &[u8], n: usize) -> io::Result<()> {
    let bytes = first(rows, n);
    tried::save_right(rt)?;
    save(rt, "master.bin", bytes)?;
    tried::run(rt, name, bytes)
}

// Lengths that are no multiple of 200, of the row of SMITH and spaces behind it.
fn lengths(rt: &impl Runtime, rows: &[u8]) -> io::Result<()> {
    master(rt, b"3: master.bin of 1 byte", rows, 1)?;
    master(rt, b"3: master.bin of 199 bytes", rows, 199)?;
    master(rt, b"3: master.bin of 201 bytes", rows, 201)?;
    master(rt, b"3: master.bin of 39,999 bytes", rows, 39999)?;
    master(rt, b"4: a row of spaces", rows, 400)
}

// The row twice and a byte behind it, with a later fault.
fn row_twice(rt: &impl Runtime, rows: &[u8]) -> io::Result<()> {
    master(rt, b"4: a row twice", rows, 400)?;
    save(rt, "batch.bin", b"")?;
    tried::run(rt, b"4 before 5", first(rows, 400))?;
    save(rt, "master.bin", rows)?;
    tried::run(rt, b"3 before 4 and 5", rows)
}

pub fn masters(rt: &impl Runtime) -> io::Result<()> {
    let row = records::row(123456789);
    let mut rows = [0x40u8; 40000];
    place(&mut rows, 0, &row);
    lengths(rt, &rows)?;
    let mut two = [0x40u8; 401];
    place(&mut two, 0, &row);
    place(&mut two, 200, &row);
    row_twice(rt, &two)
}

fn batch(rt: &impl Runtime, name: &[u8], bytes: &[u8]) -> io::Result<()> {
    tried::save_right(rt)?;
    save(rt, "batch.bin", bytes)?;
    tried::run_right(rt, name)
}

// The batch with another control record.
fn with_last(rt: &impl Runtime, name: &[u8], control: &[u8; 245]) -> io::Result<()> {
    let rec = records::detail(b"MN", 123456789, b"SMITH", b"", 100);
    let bytes = records::batch_of_one(&rec, control);
    batch(rt, name, &bytes)
}

// Its state and word, and its totals.
fn with_control(
    rt: &impl Runtime,
    name: &[u8],
    start: &[u8],
    tanf: u64,
    non_tanf: u64,
    tanf_dollars: u64,
    dollars: u64,
) -> io::Result<()> {
    let control = records::control(start, tanf, non_tanf, tanf_dollars, dollars);
    with_last(rt, name, &control)
}

// Its state and word, and the right totals, but for a text from a column on.
fn with_text(
    rt: &impl Runtime,
    name: &[u8],
    start: &[u8],
    column: usize,
    text: &[u8],
) -> io::Result<()> {
    let mut control = records::control(start, 0, 1, 0, 100);
    put(&mut control, column, text);
    with_last(rt, name, &control)
}

// Lengths that are no records, and a batch that ends without a control record.
fn no_control(rt: &impl Runtime) -> io::Result<()> {
    let bytes = records::modify();
    batch(rt, b"5: batch.bin empty", b"")?;
    batch(rt, b"5: batch.bin of 244 bytes", &bytes[0..244])?;
    batch(rt, b"5: batch.bin of 489 bytes", &bytes[0..489])?;
    batch(rt, b"6: no control record", &bytes[0..245])
}

// Control records with one wrong part: the word, the state, a total, the filler.
fn wrong_parts(rt: &impl Runtime) -> io::Result<()> {
    with_control(rt, b"6: CTX", b"OHCTX", 0, 1, 0, 100)?;
    with_control(rt, b"20: state ZZ", b"ZZCTL", 0, 1, 0, 100)?;
    with_text(rt, b"21: a letter in column 6", b"OHCTL", 6, b"A")?;
    with_text(rt, b"21: a space in column 45", b"OHCTL", 45, b" ")?;
    with_text(rt, b"21: a digit in column 46", b"OHCTL", 46, b"0")?;
    with_text(rt, b"21: a digit in column 245", b"OHCTL", 245, b"0")
}

// Two and more wrong parts.
fn parts_in_order(rt: &impl Runtime) -> io::Result<()> {
    with_control(rt, b"6 before 20", b"ZZCTX", 0, 1, 0, 100)?;
    with_text(rt, b"6 before 21", b"OHCTX", 46, b"0")?;
    with_text(rt, b"20 before 21", b"ZZCTL", 46, b"0")?;
    with_text(rt, b"6 before 20 and 21", b"ZZCTX", 45, b"A")?;
    with_control(rt, b"20 before 7 and 8", b"ZZCTL", 0, 2, 0, 99)?;
    with_text(
        rt,
        b"21 before 7 and 8",
        b"OHCTL",
        23,
        b"2000000000000000000000990",
    )
}

pub fn batches(rt: &impl Runtime) -> io::Result<()> {
    no_control(rt)?;
    wrong_parts(rt)?;
    parts_in_order(rt)?;
    with_control(rt, b"7: two details", b"OHCTL", 0, 2, 0, 100)?;
    with_control(rt, b"7: a TANF detail", b"OHCTL", 1, 0, 0, 100)?;
    with_control(rt, b"7 before 8", b"OHCTL", 1, 1, 0, 99)?;
    with_control(rt, b"8: 99 dollars", b"OHCTL", 0, 1, 0, 99)?;
    with_control(rt, b"8: TANF dollars", b"OHCTL", 0, 1, 1, 100)
}
