// The number of a record's key: the place of its state among the 54, times a thousand, and its code.
ghost use Rattle.std.specs.Prelude.{◌≡◌, true, ◌<◌, length};
ghost use Rattle.contactrecord.specs.Contact.{is_contact_key};
ghost use Rattle.contactupdate.specs.KeyNumbers.{key_number};

use contactrecord::chart_a3;
use layout::states;
use text::fields;

// How many keys there are.
pub const KEYS: usize = 54000;

// The number of a record's key.
pub fn key_number(rec: &[u8]) -> usize
    requires { (length rec.now ≡ 220) × (is_contact_key rec.now ≡ true) }
    ensures { (result ≡ key_number rec.now) × (result < 54000) }
{
    let place = states::place_of(fields::field(rec, chart_a3::STATE));
    let code = fields::number_at(rec, chart_a3::CODE) as usize;
    place * 1000 + code
}
