// Parts of what was lent.
ghost use Rattle.std.specs.Prelude.{◌≡◌, ◌*◌, ◌<◌, take};
ghost use Rattle.layout.specs.Batch.{detail_count};

// The first n items of s, or all of it where there are fewer.
pub fn first<T>(s: &[T], n: usize) -> &[T]
    ensures { result.now ≡ take n s.now }
{
    &s[..s.len().min(n)]
}

// How many bytes the first n blocks of a width have, or all of s where there are fewer.
pub fn blocks_length(s: &[u8], n: usize, width: usize) -> usize
    requires { 0 < width }
    ensures { take result s.now ≡ take (n * width) s.now }
{
    if s.len() / width < n {
        return s.len();
    }
    n * width
}

// How many details a batch has: all records but the last.
pub fn detail_count(batch: &[u8]) -> usize
    ensures { result ≡ detail_count batch.now }
{
    (batch.len() / 245).saturating_sub(1)
}
