// The space of apply-batch, and the refusal of files that are missing or beyond it.
ghost use Rattle.std.specs.Prelude.{◌≡◌};
ghost use Rattle.apply_files.specs.Limits.{size_of, is_beyond, refusal0};

// Space for 200 rows, for 100 details and a control record, and for 1,000 codes, in bytes.
pub const MASTER_SPACE: usize = 40000;

pub const BATCH_SPACE: usize = 24745;

pub const LOCALS_SPACE: usize = 3000;

// Whether a file, of which so many bytes were read, is missing or longer than the space; none were read of one that is missing or can't be.
fn is_beyond(space: usize, file: Option<usize>) -> bool
    ensures { result ≡ is_beyond space (size_of file) }
{
    match file {
        Some(n) => space < n,
        None => true,
    }
}

// Whether the four files are refused before all else.
pub fn are_refused(
    master: Option<usize>,
    batch: Option<usize>,
    locals: Option<usize>,
    year: Option<usize>,
) -> bool
    ensures { result ≡ refusal0 (size_of master) (size_of batch) (size_of locals) (size_of year) }
{
    let long = is_beyond(LOCALS_SPACE, locals) | year.is_none();
    is_beyond(MASTER_SPACE, master) | (is_beyond(BATCH_SPACE, batch) | long)
}
