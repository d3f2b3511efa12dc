// A line of the collection file: its key and its amounts.
ghost use Rattle.std.specs.Prelude.{◌≡◌, length};
ghost use Rattle.collectionfile.specs.Line.{line_key};
ghost use Rattle.collectionfile.specs.Parts.{AreAmounts};

use crate::cents::Cents;
use crate::{amount, chart_04};
use casemaster::row;
use text::fields;

pub const LINE_WIDTH: usize = 240;

// The two amounts of a line, a bad one being zero, and whether neither is bad and not both are above zero.
#[derive(Clone, Copy)]
pub struct Amounts {
    pub right: bool,
    pub collection: Cents,
    pub adjustment: Cents,
}

// A line's key: columns 1–2, 6–14 and 107.
pub fn line_key(line: &[u8]) -> [u8; 12]
    requires { length line.now ≡ 240 }
    ensures { result ≡ line_key line.now }
{
    let mut key = [0u8; 12];
    fields::copy(&mut key, row::STATE, line, chart_04::STATE);
    fields::copy(&mut key, row::SSN, line, chart_04::SSN);
    fields::copy(&mut key, row::CASE_TYPE, line, chart_04::CASE_TYPE);
    key
}

// A line's amounts.
pub fn read_amounts(line: &[u8]) -> Amounts
    requires { length line.now ≡ 240 }
    ensures { AreAmounts line.now result }
{
    let a = amount::read_amount(fields::field(line, chart_04::COLLECTION));
    let b = amount::read_amount(fields::field(line, chart_04::ADJUSTMENT));
    let collection = a.unwrap_or(Cents(0));
    let adjustment = b.unwrap_or(Cents(0));
    let both = (0 < collection.0) & (0 < adjustment.0);
    let right = a.is_some() & (b.is_some() & !both);
    Amounts {
        right,
        collection,
        adjustment,
    }
}
