// Dollars on the master, cents in the collection file; here alone the one becomes the other.
ghost use Rattle.std.specs.Prelude.{◌≡◌, ◌+◌, ◌*◌, ◌/◌, ◌%◌, ◌<◌};

use collectionfile::cents::Cents;

// Whole dollars, as the master has them.
#[derive(Clone, Copy)]
pub struct Dollars(pub u64);

// Dollars and the cents beside them, in cents.
pub fn in_cents(dollars: Dollars, part: Cents) -> Cents
    requires { (dollars.0 < 100000000) × (part.0 < 100) }
    ensures { result.0 ≡ dollars.0 * 100 + part.0 }
{
    let whole = dollars.0 * 100;
    Cents(whole + part.0)
}

// The whole dollars in some cents.
pub fn whole_dollars(cents: Cents) -> Dollars
    ensures { result.0 ≡ cents.0 / 100 }
{
    Dollars(cents.0 / 100)
}

// The cents beside the whole dollars.
pub fn beside_dollars(cents: Cents) -> Cents
    ensures { result.0 ≡ cents.0 % 100 }
{
    Cents(cents.0 % 100)
}
