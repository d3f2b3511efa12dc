// The table merged from its end: each key in turn, from the last, gets its last good record of the file, else the one that it had.
ghost use Rattle.std.specs.Prelude.{◌≡◌, ℕ, ◌+◌, ◌*◌, ◌≤◌, length, get_or};
ghost use Rattle.text.specs.Blocks.{spliced, over, joined};
ghost use Rattle.contactupdate.specs.KeyNumbers.{spread};
ghost use Rattle.contactupdate.specs.Merging.{present_of, present_from, chosen, held_finally, Ready};

use crate::key_numbers::KEYS;
use contactrecord::chart_a3::CONTACT_WIDTH;
use text::fields;

// One where a key has a record afterwards: where one of the file is noted, or else what the mark of the table says.
fn present(held: u8, last: u32) -> usize
    ensures { result ≡ present_of held last }
{
    if last == 0 {
        return held as usize;
    }
    1
}

// How many keys have a record afterwards.
pub fn count_present(held: &[u8], lasts: &[u32]) -> usize
    requires { (length held.now ≡ length lasts.now) × ((j : ℕ) → get_or held.now j 0 ≤ 1) }
    ensures { result ≡ present_from 0 (length held.now) held.now lasts.now }
{
    held.iter()
        .zip(lasts)
        .map(|(held, last)| present(*held, *last))
        .sum()
}

// Writes the record that a key gets at place p, where it gets one. One of the table goes through a copy, since it mostly stays where it is, and
// the library moves bytes within a slice one by one there.
fn place_record(table: &mut [u8], file: &[u8], held: u8, last: u32, o: usize, p: usize)
    requires { (held ≤ 1) × (last * 220 ≤ length file.now)
        × ((o + held) * 220 ≤ length table.old) × ((p + present_of held last) * 220 ≤ length table.old) }
    ensures { table.new ≡ spliced table.old (p * 220) (chosen file.now table.old held last o) }
{
    let to = p * CONTACT_WIDTH;
    if last != 0 {
        let i = (last - 1) as usize;
        let at = i * CONTACT_WIDTH;
        fields::copy_in(table, to, &file[at..at + CONTACT_WIDTH]);
        return;
    }
    if held != 0 {
        let at = o * CONTACT_WIDTH;
        let mut rec = [0u8; CONTACT_WIDTH];
        rec.copy_from_slice(&table[at..at + CONTACT_WIDTH]);
        fields::copy_in(table, to, &rec);
    }
}

// Merges the file's records into the table from its end: `count` records stand there before, `total` afterwards.
pub fn merge(table: &mut [u8], count: usize, total: usize, file: &[u8], held: &[u8], lasts: &[u32])
    requires { Ready table.old count total file.now held.now lasts.now }
    ensures { table.new
        ≡ over (joined (spread 0 54000 (held_finally table.old count file.now lasts.now))) table.old }
{
    let mut o = count;
    let mut p = total;
    for k in (0..KEYS).rev() {
        let h = held[k];
        let l = lasts[k];
        o -= h as usize;
        p -= present(h, l);
        place_record(table, file, h, l, o, p);
    }
}
