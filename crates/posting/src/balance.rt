// The balance of a row, and a row with another balance.
ghost use Rattle.std.specs.Prelude.{◌≡◌, true, cond, [], ◌∷◌, ◌+◌, ◌-◌, ◌≤◌, eqb, length};
ghost use Rattle.text.specs.Characters.{space, D};
ghost use Rattle.text.specs.Fields.{placed, digit_field};
ghost use Rattle.casemaster.specs.Row.{balance, is_sound_row};
ghost use Rattle.posting.specs.Posting.{most, with_balance};

use crate::money;
use crate::money::Dollars;
use casemaster::row;
use collectionfile::cents::Cents;
use text::fields;

// 99,999,999.99, in cents.
pub const MOST: u64 = 9999999999;

// The balance of a row.
pub fn balance_of(row: &[u8]) -> Cents
    requires { (length row.now ≡ 200) × (is_sound_row row.now ≡ true) }
    ensures { (result.0 ≡ balance row.now) × (result.0 ≤ most) }
{
    let dollars = Dollars(fields::number_at(row, row::ARREARAGE));
    let part = Cents(fields::number_at(row, row::CENTS));
    money::in_cents(dollars, part)
}

// A balance after a collection and an adjustment, never below zero.
pub fn balance_after(balance: Cents, collection: Cents, adjustment: Cents) -> Cents
    requires { balance.0 + adjustment.0 ≤ most }
    ensures { result.0 ≡ balance.0 + adjustment.0 - collection.0 }
{
    let raised = balance.0 + adjustment.0;
    let taken = collection.0;
    if raised < taken {
        return Cents(0);
    }
    Cents(raised - taken)
}

// The row with other dollars.
fn with_dollars(row: [u8; 200], dollars: Dollars) -> [u8; 200]
    ensures { result ≡ placed 66 73 (digit_field 8 dollars.0) row }
{
    let mut out = row;
    fields::put_number(&mut out, row::ARREARAGE, dollars.0);
    out
}

// The row with other cents beside its dollars.
fn with_cents(row: [u8; 200], part: Cents) -> [u8; 200]
    ensures { result ≡ placed 197 198 (digit_field 2 part.0) row }
{
    let mut out = row;
    fields::put_number(&mut out, row::CENTS, part.0);
    out
}

// The status byte of a balance.
fn status_of(cents: Cents) -> u8
    ensures { result ≡ cond (eqb cents.0 0) D space }
{
    if cents.0 == 0 {
        row::DELETED
    } else {
        row::LIVE
    }
}

// The row with a status.
fn with_status(row: [u8; 200], status: u8) -> [u8; 200]
    ensures { result ≡ placed 196 196 (status ∷ []) row }
{
    let mut out = row;
    fields::put(&mut out, row::STATUS, &[status]);
    out
}

// The row with another balance.
pub fn with_balance(row: [u8; 200], cents: Cents) -> [u8; 200]
    ensures { result ≡ with_balance cents.0 row }
{
    let part = money::beside_dollars(cents);
    let dollars = money::whole_dollars(cents);
    let a = with_cents(row, part);
    let b = with_status(a, status_of(cents));
    with_dollars(b, dollars)
}
