// Error 14: the ZIP.
ghost use Rattle.std.specs.Prelude.{◌≡◌};
ghost use Rattle.layout.specs.Zip.{is_zip};

use text::fields;
use text::fields::Columns;

const FIVE: Columns = Columns { first: 1, last: 5 };

const FOUR: Columns = Columns { first: 6, last: 9 };

// Whether s is a right ZIP: nine digits, or five and four spaces.
pub fn is_zip(s: &[u8]) -> bool
    ensures { result ≡ is_zip s.now }
{
    if s.len() != 9 {
        return false;
    }
    fields::all_digits(s)
        | (fields::all_digits(fields::field(s, FIVE)) & fields::is_blank(fields::field(s, FOUR)))
}
