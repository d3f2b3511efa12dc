// The pass over a file: each key's last good record is noted by its number, and the numbers of the faulty records are listed.
ghost use Rattle.std.specs.Prelude.{◌≡◌, cond, ◌+◌, ◌*◌, ◌≤◌, ◌<◌, length, set};
ghost use Rattle.text.specs.Blocks.{over};
ghost use Rattle.layout.specs.Limits.{max_rows};
ghost use Rattle.contactrecord.specs.Contact.{is_faulty};
ghost use Rattle.contacttable.specs.Table.{contacts_of};
ghost use Rattle.contactupdate.specs.Update.{faulty_from};
ghost use Rattle.contactupdate.specs.KeyNumbers.{key_number};
ghost use Rattle.contactupdate.specs.Noting.{lasts_from};

use crate::key_numbers;
use contactrecord::chart_a3::CONTACT_WIDTH;
use contactrecord::contact;
use text::counting;

// Notes a good record's number under its key, or lists a faulty one's; returns how many are listed.
fn note_record(
    rec: &[u8],
    number: u32,
    lasts: &mut [u32],
    faulty: &mut [u32],
    listed: usize,
) -> usize
    requires { (length rec.now ≡ 220) × (length lasts.old ≡ 54000) × (listed < length faulty.old) }
    ensures { (result ≡ cond (is_faulty rec.now) (listed + 1) listed)
        × (lasts.new ≡ cond (is_faulty rec.now) lasts.old (set lasts.old (key_number rec.now) number))
        × (faulty.new ≡ cond (is_faulty rec.now) (set faulty.old listed number) faulty.old) }
{
    if contact::is_faulty(rec) {
        return counting::list_number(faulty, listed, number);
    }
    lasts[key_numbers::key_number(rec)] = number;
    listed
}

// Notes the numbers of the last good records of each key, and lists those of the faulty ones; returns how many are listed.
pub fn note_file(file: &[u8], n: usize, lasts: &mut [u32], faulty: &mut [u32]) -> usize
    requires { (n * 220 ≤ length file.now) × (n ≤ max_rows) × (length lasts.old ≡ 54000) × (n ≤ length faulty.old) }
    ensures { (result ≡ length (faulty_from 1 (contacts_of n file.now)))
        × (lasts.new ≡ lasts_from 1 (contacts_of n file.now) lasts.old)
        × (faulty.new ≡ over (faulty_from 1 (contacts_of n file.now)) faulty.old) }
{
    let mut listed: usize = 0;
    for (i, rec) in file[..n * CONTACT_WIDTH]
        .chunks_exact(CONTACT_WIDTH)
        .enumerate()
    {
        let number = (i + 1) as u32;
        listed = note_record(rec, number, lasts, faulty, listed);
    }
    listed
}
