// The program apply-batch: four files read, the batch applied, two files and a line written.
#![tactic(auto)]

mod files;
pub mod limits;
pub mod outcome;
pub mod year;

use apply_output::line;
use apply_output::new_files::{NewFiles, files_to_write};
use apply_output::parts::first;
use apply_output::stop::Stop;
use batch::apply::Applied;
use outcome::{length_of, outcome_of};
use std::io;
use std::rt::Files;

// Writes the files of a run; a refusal writes none. False where a file can't be written.
fn write_files(
    rt: &(impl Files + Eprint),
    files: Option<NewFiles>,
    master: &[u8; 40001],
    rejects: &[u8; 24745],
) -> bool {
    match files {
        Some(new) => files::replace(rt, first(master, new.master), first(rejects, new.rejects)),
        None => true,
    }
}

// Says on standard error that standard output doesn't take the line, and, of a run that was carried out, that the files are in place.
fn fail_line(rt: &impl Eprint, answer: Result<Applied, Stop>, why: &io::Error) {
    match answer {
        Ok(_) => {
            let in_place = "master.bin and rejects.bin are in place, but the line can't be printed";
            files::fail(rt, in_place, why);
        }
        Err(_) => files::fail(rt, "the line can't be printed", why),
    }
}

// Prints the line of an answer to a batch.
fn print_line(rt: &(impl Print + Eprint), batch: &[u8], answer: Result<Applied, Stop>) {
    let mut text = [0u8; 160];
    let n = line::put_line(&mut text, batch, answer);
    if let Err(e) = rt.write_all(first(&text, n)) {
        fail_line(rt, answer, &e);
    }
}

// Applies the batch to the files, each as it was read into its buffer, writes, and prints the line.
fn run_over(
    rt: &(impl Files + Print + Eprint),
    master: &mut [u8; 40001],
    m: Option<usize>,
    batch: &[u8],
    b: Option<usize>,
    locals: &[u8],
    l: Option<usize>,
    year: &[u8],
    y: Option<usize>,
) {
    let mut verdicts = [0u64; 100];
    let mut rejects = [0u8; 24745];
    let answer = outcome_of(
        master,
        m,
        batch,
        b,
        locals,
        l,
        year,
        y,
        &mut verdicts,
        &mut rejects,
    );
    let bytes = first(batch, length_of(b));
    let files = files_to_write(answer, bytes, master, &verdicts, &rejects);
    if write_files(rt, files, master, &rejects) {
        print_line(rt, bytes, answer);
    }
}

// Reads the four files of the present folder and runs over them.
pub fn run(rt: &(impl Files + Print + Eprint)) {
    let mut master = [0u8; 40001];
    let mut batch = [0u8; 24746];
    let mut locals = [0u8; 3001];
    let mut year = [0u8; 5];
    let m = files::read(rt, "master.bin", &mut master);
    let b = files::read(rt, "batch.bin", &mut batch);
    let l = files::read(rt, "locals.bin", &mut locals);
    let y = files::read(rt, "year.txt", &mut year);
    run_over(rt, &mut master, m, &batch, b, &locals, l, &year, y);
}
