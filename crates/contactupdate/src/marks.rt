// The keys of a table marked at their numbers, and the records of a file whose key isn't marked.
ghost use Rattle.std.specs.Prelude.{◌≡◌, true, ℕ, ◌*◌, ◌≤◌, length, get_or};
ghost use Rattle.contacttable.specs.Table.{contacts_of, is_table};
ghost use Rattle.contactupdate.specs.Marks.{keys_marked, is_lacking, lacking_in};

use crate::key_numbers;
use contactrecord::chart_a3::CONTACT_WIDTH;
use contactrecord::contact;

// Marks the keys of a table's records by 1.
pub fn mark_table(table: &[u8], count: usize, held: &mut [u8])
    requires { (count * 220 ≤ length table.now) × (length held.old ≡ 54000) × (is_table (contacts_of count table.now) ≡ true) }
    ensures { held.new ≡ keys_marked (contacts_of count table.now) held.old }
{
    for rec in table[..count * CONTACT_WIDTH].chunks_exact(CONTACT_WIDTH) {
        held[key_numbers::key_number(rec)] = 1;
    }
}

// Whether the key of a record isn't marked.
fn lacks(rec: &[u8], held: &[u8]) -> bool
    requires { (length rec.now ≡ 220) × (length held.now ≡ 54000) }
    ensures { result ≡ is_lacking held.now rec.now }
{
    !contact::is_contact_key(rec) || held[key_numbers::key_number(rec)] == 0
}

// How many of the file's records have a key that isn't marked.
pub fn count_lacking(file: &[u8], n: usize, held: &[u8]) -> usize
    requires { (n * 220 ≤ length file.now) × (length held.now ≡ 54000) × ((j : ℕ) → get_or held.now j 0 ≤ 1) }
    ensures { (result ≡ lacking_in held.now (contacts_of n file.now)) × (result ≤ n) }
{
    file[..n * CONTACT_WIDTH]
        .chunks_exact(CONTACT_WIDTH)
        .filter(|rec| lacks(rec, held))
        .count()
}
