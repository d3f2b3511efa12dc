// Blocks of one width that stand one behind the other: the bytes of one.
ghost use Rattle.std.specs.Prelude.{◌≡◌, ◌+◌, ◌*◌, ◌≤◌, length, take, drop};

// The block of N bytes at place i, copied out.
pub fn block_at<const N: usize>(s: &[u8], i: usize) -> [u8; N]
    requires { i * N + N ≤ length s.now }
    ensures { result ≡ take N (drop (i * N) s.now) }
{
    let at = i * N;
    let end = at + N;
    let mut block = [0u8; N];
    block.copy_from_slice(&s[at..end]);
    block
}
