// A master of rows without cents made one of rows with cents: 00 in each.
ghost use Rattle.std.specs.Prelude.{◌≡◌, ◌+◌, ◌*◌, ◌≤◌, length, take, drop};
ghost use Rattle.casemaster.specs.Search.{RowPut};
ghost use Rattle.casemaster.specs.Row.{with_zero_cents};
ghost use Rattle.addcents.specs.Convert.{convert_call, added_as, AreCentsAdded};
ghost use Rattle.addcents.specs.Zeroed.{Zeroed};

use answers::refusal::Refusal;
use casemaster::{master, refusals, row};
use text::fields;

// The row with zero cents.
fn zero_cents(row: [u8; 200]) -> [u8; 200]
    ensures { result ≡ with_zero_cents row }
{
    let mut out = row;
    fields::put(&mut out, row::CENTS, b"\xF0\xF0");
    out
}

// Zero cents in the row at place p.
fn zero_at(m: &mut [u8], p: usize)
    requires { p * 200 + 200 ≤ length m.old }
    ensures { RowPut m.old p (with_zero_cents (take 200 (drop (p * 200) m.old))) m.new }
{
    let row = master::row_at(m, p);
    master::put_row(m, p, zero_cents(row));
}

// Zero cents in each of the first n rows.
fn zero_all(m: &mut [u8], n: usize)
    requires { n * 200 ≤ length m.old }
    ensures { Zeroed m.old n m.new }
{
    for i in 0..n {
        zero_at(m, i);
    }
}

// Writes 00 into every row of a master that has no cents yet.
pub fn add_cents(master: &mut [u8], rows: usize) -> Result<(), Refusal>
    ensures { AreCentsAdded (convert_call master.old rows) (added_as result master.new) }
{
    refusals::old_master_refusal(master, rows)?;
    zero_all(master, rows);
    Ok(())
}
