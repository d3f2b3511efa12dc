// The call: a file read into a table, or a refusal.
ghost use Rattle.std.specs.Prelude.{◌≡◌, length};
ghost use Rattle.text.specs.Blocks.{joined, over};
ghost use Rattle.layout.specs.Limits.{max_rows};
ghost use Rattle.contactupdate.specs.Update.{is_wrong_file, records_of, new_table, faulty_from, updated_as, update_outcome};
ghost use Rattle.contactupdate.specs.Merging.{Passed};

use crate::{marks, merging, noting};
use answers::refusal::Refusal;
use contactrecord::chart_a3::CONTACT_WIDTH;
use contacttable::table;
use layout::limits::MAX_ROWS;

// What a file read into a table gives: the new table count, and how many numbers are listed.
#[derive(Clone, Copy)]
pub struct Updated {
    pub records: usize,
    pub listed: usize,
}

// Whether refusal 18 holds of a file.
fn is_wrong_file(file: &[u8]) -> bool
    ensures { result ≡ is_wrong_file max_rows file.now }
{
    if file.len() % CONTACT_WIDTH != 0 {
        return true;
    }
    MAX_ROWS < file.len() / CONTACT_WIDTH
}

// Reads the file into a table whose keys are marked.
fn work(table: &mut [u8], count: usize, file: &[u8], faulty: &mut [u32], held: &[u8]) -> Updated
    requires { Passed table.old count file.now faulty.old held.now }
    ensures { (result.records ≡ length (new_table table.old count file.now))
        × (result.listed ≡ length (faulty_from 1 (records_of file.now)))
        × (table.new ≡ over (joined (new_table table.old count file.now)) table.old)
        × (faulty.new ≡ over (faulty_from 1 (records_of file.now)) faulty.old) }
{
    let n = file.len() / CONTACT_WIDTH;
    let mut lasts = [0u32; 54000];
    let listed = noting::note_file(file, n, &mut lasts, faulty);
    let records = merging::count_present(held, &lasts);
    merging::merge(table, count, records, file, held, &lasts);
    Updated { records, listed }
}

// Reads a file into a table of `count` records and lists the numbers of its faulty ones, or refuses.
pub fn update(
    table: &mut [u8],
    count: usize,
    file: &[u8],
    faulty: &mut [u32],
) -> Result<Updated, Refusal>
    ensures { updated_as result table.new faulty.new
        ≡ update_outcome max_rows table.old count file.now faulty.old }
{
    if is_wrong_file(file) {
        return Err(Refusal::WrongContacts);
    }
    if table::is_wrong_table(table, count) {
        return Err(Refusal::WrongContacts);
    }
    let mut held = [0u8; 54000];
    marks::mark_table(table, count, &mut held);
    let n = file.len() / CONTACT_WIDTH;
    let room = table.len() / CONTACT_WIDTH - count;
    if room < marks::count_lacking(file, n, &held) {
        return Err(Refusal::ShortContacts);
    }
    if faulty.len() < n {
        return Err(Refusal::ShortContacts);
    }
    Ok(work(table, count, file, faulty, &held))
}
