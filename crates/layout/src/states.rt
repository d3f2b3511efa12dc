// The state table and membership in it.
ghost use Rattle.std.specs.Prelude.{◌≡◌, true, ◌<◌};
ghost use Rattle.layout.specs.States.{state_table, is_state};
ghost use Rattle.layout.specs.StateCodes.{state_codes, is_state_code, count_below, state_place};

use text::counting;

// The codes of the state table in EBCDIC, rising.
const STATES: [[u8; 2]; 54] = [
    [0xC1, 0xD2],
    [0xC1, 0xD3],
    [0xC1, 0xD9],
    [0xC1, 0xE9],
    [0xC3, 0xC1],
    [0xC3, 0xD6],
    [0xC3, 0xE3],
    [0xC4, 0xC3],
    [0xC4, 0xC5],
    [0xC6, 0xD3],
    [0xC7, 0xC1],
    [0xC7, 0xE4],
    [0xC8, 0xC9],
    [0xC9, 0xC1],
    [0xC9, 0xC4],
    [0xC9, 0xD3],
    [0xC9, 0xD5],
    [0xD2, 0xE2],
    [0xD2, 0xE8],
    [0xD3, 0xC1],
    [0xD4, 0xC1],
    [0xD4, 0xC4],
    [0xD4, 0xC5],
    [0xD4, 0xC9],
    [0xD4, 0xD5],
    [0xD4, 0xD6],
    [0xD4, 0xE2],
    [0xD4, 0xE3],
    [0xD5, 0xC3],
    [0xD5, 0xC4],
    [0xD5, 0xC5],
    [0xD5, 0xC8],
    [0xD5, 0xD1],
    [0xD5, 0xD4],
    [0xD5, 0xE5],
    [0xD5, 0xE8],
    [0xD6, 0xC8],
    [0xD6, 0xD2],
    [0xD6, 0xD9],
    [0xD7, 0xC1],
    [0xD7, 0xD9],
    [0xD9, 0xC9],
    [0xE2, 0xC3],
    [0xE2, 0xC4],
    [0xE3, 0xD5],
    [0xE3, 0xE7],
    [0xE4, 0xE3],
    [0xE5, 0xC1],
    [0xE5, 0xC9],
    [0xE5, 0xE3],
    [0xE6, 0xC1],
    [0xE6, 0xC9],
    [0xE6, 0xE5],
    [0xE6, 0xE8],
];

// The state table.
fn states() -> [[u8; 2]; 54]
    ensures { result ≡ state_table }
{
    STATES
}

// Whether the number is a state's. It is compared with every code, and nothing is decided on the way: that becomes a few comparisons of
// many codes at once, and states in any order take the same time. Never inlined, since beside a caller's code they become more.
#[inline(never)]
fn is_code(x: u16) -> bool
    ensures { result ≡ is_state_code x }
{
    states().iter().fold(
        false,
        |found, code| found | (x == u16::from_be_bytes(*code)),
    )
}

// Whether s is a code of the state table.
pub fn is_state(s: &[u8]) -> bool
    ensures { result ≡ is_state s.now }
{
    s.len() == 2 && is_code(u16::from_be_bytes([s[0], s[1]]))
}

// The number of the first state of the table.
pub const FIRST_CODE: u16 = 0xC1D2;

// Whether a number is a state's, where another is: the same is not looked up again.
pub fn is_code_after(known: u16, x: u16) -> bool
    requires { is_state_code known ≡ true }
    ensures { result ≡ is_state_code x }
{
    x == known || is_code(x)
}

// How many states' numbers are below x.
fn count_below(x: u16) -> usize
    ensures { result ≡ count_below x state_codes }
{
    let mut n: usize = 0;
    for code in &states() {
        let y = u16::from_be_bytes(*code);
        n += counting::one_if(y < x);
    }
    n
}

// The place of a state in the table, the first being 0.
pub fn place_of(s: &[u8]) -> usize
    requires { is_state s.now ≡ true }
    ensures { (result ≡ state_place s.now) × (result < 54) }
{
    count_below(u16::from_be_bytes([s[0], s[1]]))
}
