// Error 13: the process year.
ghost use Rattle.std.specs.Prelude.{◌≡◌};
ghost use Rattle.layout.specs.ProcessYear.{in_window};

use text::fields;

// Whether s is four digits of a year within the seven years up to `year`.
pub fn in_window(year: u64, s: &[u8]) -> bool
    ensures { result ≡ in_window year s.now }
{
    if !fields::are_digits(s, 4) {
        return false;
    }
    let y = fields::number_of(s);
    (year <= y + 7) & (y <= year)
}
