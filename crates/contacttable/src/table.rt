// A lent table: whether it is refused.
ghost use Rattle.std.specs.Prelude.{◌≡◌, not, ◌*◌, ◌≤◌, length};
ghost use Rattle.text.specs.Fields.{every};
ghost use Rattle.contactrecord.specs.Contact.{is_faulty};
ghost use Rattle.contacttable.specs.Table.{contacts_of, is_table, is_wrong_table};

use contactrecord::chart_a3::CONTACT_WIDTH;
use contactrecord::contact;
use text::byte_order;

// Whether none of the first n records is faulty.
fn are_good(m: &[u8], n: usize) -> bool
    requires { n * 220 ≤ length m.now }
    ensures { result ≡ every (λ rec. not (is_faulty rec)) (contacts_of n m.now) }
{
    m[..n * CONTACT_WIDTH]
        .chunks_exact(CONTACT_WIDTH)
        .all(|rec| !contact::is_faulty(rec))
}

// Whether the first n records are a table: none faulty, strictly rising by state and code.
fn is_table(m: &[u8], n: usize) -> bool
    requires { n * 220 ≤ length m.now }
    ensures { result ≡ is_table (contacts_of n m.now) }
{
    are_good(m, n) && byte_order::is_rising(m, n, CONTACT_WIDTH, 5)
}

// Whether refusal 18 holds of a table of `count` records.
pub fn is_wrong_table(m: &[u8], count: usize) -> bool
    ensures { result ≡ is_wrong_table m.now count }
{
    if m.len() % CONTACT_WIDTH != 0 {
        return true;
    }
    if m.len() / CONTACT_WIDTH < count {
        return true;
    }
    !is_table(m, count)
}
