// The run over the bytes of the four files.
ghost use Rattle.std.specs.Prelude.{◌≡◌, true, ◌≤◌, length};
ghost use Rattle.batch.specs.Apply.{applied_as};
ghost use Rattle.apply_output.specs.Stop.{run_as, is_named};
ghost use Rattle.apply_files.specs.Run.{length_in, lent_length, year_outcome, by_year, run_outcome};
ghost use Rattle.apply_files.specs.Year.{year_in};

use crate::{limits, year};
use answers::refusal::Refusal;
use apply_output::parts::first;
use apply_output::stop::Stop;
use batch::apply;
use batch::apply::Applied;

// How many bytes a file has.
pub fn length_of(file: Option<usize>) -> usize
    ensures { result ≡ length_in file }
{
    file.unwrap_or(0)
}

// How much of the master's buffer the call is lent: the 200 rows. A master.bin of no multiple of 200 bytes is lent alone: its length
// is then the master's, and the call gives refusal 3 behind 1 and 2.
fn lent_length(n: usize) -> usize
    ensures { result ≡ lent_length n }
{
    if n % 200 == 0 {
        limits::MASTER_SPACE
    } else {
        n
    }
}

// Applies the batch to the n bytes of master.bin.
fn with_year(
    master: &mut [u8],
    n: usize,
    batch: &[u8],
    locals: &[u8],
    year: u64,
    verdicts: &mut [u64],
    rejects: &mut [u8],
) -> Result<Applied, Refusal>
    requires { (n ≤ 40000) × (40000 ≤ length master.old) }
    ensures { applied_as result master.new verdicts.new rejects.new
        ≡ year_outcome master.old n batch.now locals.now year verdicts.old rejects.old }
{
    let end = lent_length(n);
    apply::apply(
        &mut master[0..end],
        n / 200,
        batch,
        locals,
        year,
        verdicts,
        rejects,
    )
}

// Refusal 1 where year.txt isn't four ASCII digits, else the call with their number.
fn with_year_text(
    master: &mut [u8],
    n: usize,
    batch: &[u8],
    locals: &[u8],
    year: &[u8],
    verdicts: &mut [u64],
    rejects: &mut [u8],
) -> Result<Applied, Refusal>
    requires { (n ≤ 40000) × (40000 ≤ length master.old) }
    ensures { applied_as result master.new verdicts.new rejects.new
        ≡ by_year (year_in year.now) master.old n batch.now locals.now
        verdicts.old rejects.old }
{
    match year::year_of(year) {
        None => Err(Refusal::WrongYear),
        Some(number) => with_year(master, n, batch, locals, number, verdicts, rejects),
    }
}

// The run over the four files, each as it was read into its buffer. The master's has a byte more than the 200 rows, so that a longer file
// is seen.
pub fn outcome_of(
    master: &mut [u8; 40001],
    m: Option<usize>,
    batch: &[u8],
    b: Option<usize>,
    locals: &[u8],
    l: Option<usize>,
    year: &[u8],
    y: Option<usize>,
    verdicts: &mut [u64; 100],
    rejects: &mut [u8; 24745],
) -> Result<Applied, Stop>
    ensures outcome { run_as result master.new verdicts.new rejects.new
        ≡ run_outcome m b l y master.old batch.now locals.now year.now
        verdicts.old rejects.old }
    ensures named { is_named result ≡ true }
{
    if limits::are_refused(m, b, l, y) {
        return Err(Stop::Files);
    }
    let batch_bytes = first(batch, length_of(b));
    let locals_bytes = first(locals, length_of(l));
    let year_bytes = first(year, length_of(y));
    Ok(with_year_text(
        master,
        length_of(m),
        batch_bytes,
        locals_bytes,
        year_bytes,
        verdicts,
        rejects,
    )?)
}
