// The rank of a key among the submitting state's sound keys.
ghost use Rattle.std.specs.Prelude.{◌≡◌, true, not, cond, ◌≤◌, ◌<◌, ◌^◌, eqb, length};
ghost use Rattle.text.specs.Characters;
ghost use Rattle.layout.specs.Key.{is_own_key};
ghost use Rattle.keyorder.specs.Order.{rank_of, key_of_rank};

use layout::key;
use text::fields;

// Behind the ranks of all sound keys of one state.
pub const NO_RANK: u64 = 2147483648;

// One for Non-TANF, else none: within an SSN the case type A comes first.
fn type_rank(b: u8) -> u64
    ensures { result ≡ cond (eqb b Characters.N) 1 0 }
{
    if b == key::NON_TANF { 1 } else { 0 }
}

// The rank of a sound key of the state: its SSN and its case type; the state is there for the promise alone.
fn own_rank(state: &[u8], key: &[u8]) -> u64
    requires { is_own_key state.now key.now ≡ true }
    ensures { (result ≡ rank_of state.now key.now) × (result < 2 ^ 31) }
{
    let ssn = fields::number_at(key, key::SSN);
    ssn * 2 + type_rank(key[11])
}

// A key's rank, where it is known whether it is no sound key of the state: by SSN and case type, or behind all such.
pub fn rank_of(state: &[u8], key: &[u8], wrong: bool) -> u64
    requires { is_own_key state.now key.now ≡ not wrong }
    ensures { (result ≡ rank_of state.now key.now) × (result ≤ 2 ^ 31) }
{
    if wrong {
        return NO_RANK;
    }
    own_rank(state, key)
}

// The case type that is the last part of a rank.
fn type_of(part: u64) -> u8
    ensures { result ≡ cond (eqb part 1) Characters.N Characters.A }
{
    if part == 1 { key::NON_TANF } else { key::TANF }
}

// The key of a rank of the state's sound keys, without its record.
pub fn key_of(state: &[u8], rank: u64) -> [u8; 12]
    requires { length state.now ≡ 2 }
    ensures { result ≡ key_of_rank state.now rank }
{
    let mut made = [0x40u8; 12];
    fields::put(&mut made, key::STATE, state);
    fields::put_number(&mut made, key::SSN, rank / 2);
    let case_type = [type_of(rank % 2)];
    fields::put(&mut made, key::CASE_TYPE, &case_type);
    made
}
