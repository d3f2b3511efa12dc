// Counting and listing: what a test adds to a count, and a number written behind others.
ghost use Rattle.std.specs.Prelude.{◌≡◌, cond, ◌+◌, ◌≤◌, ◌<◌, length, set};

// One where a test holds, else nothing.
pub fn one_if(holds: bool) -> usize
    ensures { (result ≡ cond holds 1 0) × (result ≤ 1) }
{
    if holds { 1 } else { 0 }
}

// Writes a number behind k others of a list, and returns how many there are.
pub fn list_number(list: &mut [u32], k: usize, number: u32) -> usize
    requires { k < length list.old }
    ensures { (result ≡ k + 1) × (list.new ≡ set list.old k number) }
{
    list[k] = number;
    k + 1
}
