// Lists of texts parted by bars.
ghost use Rattle.std.specs.Prelude.{◌≤◌, length};

// The end of the text that starts at `at`.
pub fn text_end(list: &[u8], at: usize) -> usize
    requires { at ≤ length list.now }
    ensures { (at ≤ result) × (result ≤ length list.now) }
{
    for end in at..list.len() {
        if list[end] == b'|' {
            return end;
        }
    }
    list.len()
}
