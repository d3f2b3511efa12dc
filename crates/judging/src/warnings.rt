// The warnings 51 and 52, which come only without errors.
ghost use Rattle.std.specs.Prelude.{◌≡◌, List, ℕ, length};
ghost use Rattle.std.proofs.Math.Option.{some};
ghost use Rattle.layout.specs.Codes.{number_of_codes};
ghost use Rattle.judging.specs.Warnings.{warning51, is_renamed, warning52, warnings};
ghost use Rattle.judging.specs.State.{row_in};

use crate::{errors, parts};
use casemaster::row;
use layout::locals::LocalCodes;
use layout::record::TransactionType::Add;
use layout::{chart_a1, record};
use text::fields;

// Warning 51 (A): the local code is neither blank, 000 nor listed.
#[tactic(auto, unfolding(crate::specs::Warnings::warning51))]
pub fn has_51(rec: &[u8; 245], locals: LocalCodes) -> bool
    ensures { result ≡ warning51 locals.entry.list.now rec.now }
{
    if record::is_type(rec, Add) {
        !errors::is_local_code(rec, locals)
    } else {
        false
    }
}

// Whether the first or the last name differs from a row's, which is live.
fn is_renamed(rec: &[u8; 245], row: &[u8]) -> bool
    requires { length row.now ≡ 200 }
    ensures { result ≡ is_renamed (some row.now) rec.now }
{
    let last = fields::same(
        fields::field(rec, chart_a1::LAST_NAME),
        fields::field(row, row::LAST_NAME),
    );
    let first = fields::same(
        fields::field(rec, chart_a1::FIRST_NAME),
        fields::field(row, row::FIRST_NAME),
    );
    row::is_live(row) & !(last & first)
}

// Warning 52 (A): the first or the last name differs from a live row's.
#[tactic(auto, unfolding(crate::specs::Warnings::warning52, crate::specs::Warnings::is_renamed))]
pub fn has_52(rec: &[u8; 245], row: Option<&[u8; 200]>) -> bool
    ensures { result ≡ warning52 (row_in row.entry) rec.now }
{
    match row {
        Some(row) => record::is_type(rec, Add) & is_renamed(rec, row),
        None => false,
    }
}

// The set of a record's warnings, where it is known whether 51 is among them.
pub fn warned_on_row(local: bool, rec: &[u8; 245], row: Option<&[u8; 200]>) -> u64
    ensures { (list : List ℕ) → local ≡ warning51 list rec.now
        → result ≡ number_of_codes (warnings list (row_in row.entry) rec.now) }
{
    parts::flag(local, 51) + parts::flag(has_52(rec, row), 52)
}

// The set of a record's warnings.
pub fn warned(rec: &[u8; 245], row: Option<&[u8; 200]>, locals: LocalCodes) -> u64
    ensures { result ≡ number_of_codes (warnings locals.entry.list.now (row_in row.entry) rec.now) }
{
    warned_on_row(has_51(rec, locals), rec, row)
}
