// A set of codes as an unsigned number, and the columns of its six lowest codes.
ghost use Rattle.std.specs.Prelude.{◌≡◌, ◌<◌, ◌≤◌, min, length, get_or, drop};
ghost use Rattle.layout.specs.Codes.{codes_of_number, six_lowest};

// The lowest code of a set.
pub fn lowest(set: u64) -> u32
    requires { 0 < set }
    ensures { (result < 64) × (result ≡ get_or (codes_of_number set) 0 0) }
{
    u64::trailing_zeros(set)
}

// The set without its lowest code.
pub fn without_lowest(set: u64) -> u64
    requires { 0 < set }
    ensures { (result ≤ set) × (codes_of_number result ≡ drop 1 (codes_of_number set)) }
{
    let c = u64::trailing_zeros(set);
    set - (1u64 << c)
}

// How many codes are written: six at most.
pub fn written(set: u64) -> usize
    ensures { result ≡ min 6 (length (codes_of_number set)) }
{
    (u64::count_ones(set) as usize).min(6)
}

// The six lowest codes, rising, two digits each; spaces behind them.
pub fn codes_text(set: u64) -> [u8; 12]
    ensures { result ≡ six_lowest (codes_of_number set) }
{
    let mut out = [0x40u8; 12];
    let mut left = set;
    for k in 0..written(set) {
        let c = lowest(left);
        out[2 * k] = (240 + c / 10) as u8;
        out[2 * k + 1] = (240 + c % 10) as u8;
        left = without_lowest(left);
    }
    out
}
