// The codes of one state but 000, written one behind the other.
ghost use Rattle.std.specs.Prelude.{◌≡◌, [], ◌∷◌, ◌+◌, ◌*◌, ◌≤◌, length};
ghost use Rattle.text.specs.Blocks.{spliced, joined, over};
ghost use Rattle.contacttable.specs.Table.{contacts_of};
ghost use Rattle.contacttable.specs.Codes.{is_local_of, local_codes, codes_as, codes_outcome};

use crate::table;
use answers::refusal::Refusal;
use contactrecord::chart_a3;
use contactrecord::chart_a3::CONTACT_WIDTH;
use layout::states;
use text::fields;

// Whether a record is of the state, with a code other than 000.
fn is_local_of(rec: &[u8], state: &[u8]) -> bool
    requires { length rec.now ≡ 220 }
    ensures { result ≡ is_local_of state.now rec.now }
{
    let own = fields::same(fields::field(rec, chart_a3::STATE), state);
    let zero = fields::same(fields::field(rec, chart_a3::CODE), b"\xF0\xF0\xF0");
    own & !zero
}

// How many codes a state has among the first n records.
fn count_codes(m: &[u8], n: usize, state: &[u8]) -> usize
    requires { n * 220 ≤ length m.now }
    ensures { result ≡ length (local_codes state.now (contacts_of n m.now)) }
{
    m[..n * CONTACT_WIDTH]
        .chunks_exact(CONTACT_WIDTH)
        .filter(|rec| is_local_of(rec, state))
        .count()
}

// Writes the code of a record behind k codes where it is wanted, and returns how many there are.
fn put_code(out: &mut [u8], k: usize, rec: &[u8], state: &[u8]) -> usize
    requires { (length rec.now ≡ 220) × ((k + length (local_codes state.now (rec.now ∷ []))) * 3 ≤ length out.old) }
    ensures { (result ≡ k + length (local_codes state.now (rec.now ∷ [])))
        × (out.new ≡ spliced out.old (k * 3) (joined (local_codes state.now (rec.now ∷ [])))) }
{
    if !is_local_of(rec, state) {
        return k;
    }
    fields::copy_in(out, k * 3, fields::field(rec, chart_a3::CODE));
    k + 1
}

// Writes the codes of a state among the first n records.
fn put_codes(out: &mut [u8], m: &[u8], n: usize, state: &[u8])
    requires { (n * 220 ≤ length m.now) × (length (local_codes state.now (contacts_of n m.now)) * 3 ≤ length out.old) }
    ensures { out.new ≡ over (joined (local_codes state.now (contacts_of n m.now))) out.old }
{
    let mut k: usize = 0;
    for rec in m[..n * CONTACT_WIDTH].chunks_exact(CONTACT_WIDTH) {
        k = put_code(out, k, rec, state);
    }
}

// Writes the codes of one state but 000, three bytes each and rising, and answers how many there are, or refuses.
pub fn codes_of(table: &[u8], count: usize, state: &[u8], out: &mut [u8]) -> Result<usize, Refusal>
    ensures { codes_as result out.new ≡ codes_outcome table.now count state.now out.old }
{
    if table::is_wrong_table(table, count) {
        return Err(Refusal::WrongContacts);
    }
    if !states::is_state(state) {
        return Err(Refusal::WrongState);
    }
    let n = count_codes(table, count, state);
    if out.len() / 3 < n {
        return Err(Refusal::ShortContacts);
    }
    put_codes(out, table, count, state);
    Ok(n)
}
