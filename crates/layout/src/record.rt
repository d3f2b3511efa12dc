// A record: its key and its type.
ghost use Rattle.std.specs.Prelude.{◌≡◌, length};
ghost use Rattle.text.specs.Fields.{same_bytes};
ghost use Rattle.layout.specs.Record.{record_key, is_type, is_known_type};
ghost use Rattle.layout.specs.TransactionType.{Decodes, IsTypeOf, type_byte};

use crate::{chart_a1, key};
use text::fields;

// The transaction types of Chart A-1, column 73.
#[derive(Clone, Copy, Debug, PartialEq, Eq)]
pub enum TransactionType {
    // A: a case added, or certified again.
    Add,
    // B: a name changed.
    Rename,
    // C: the case ID changed.
    CaseId,
    // D: a case deleted.
    Delete,
    // L: the local code changed.
    LocalCode,
    // M: the arrearage changed.
    Modify,
    // R: the exclusions replaced.
    Exclude,
    // S: a state payment.
    Payment,
    // T: a transfer for administrative review.
    Transfer,
    // Z: the address changed.
    Address,
}

// A byte that is no transaction type.
#[derive(Clone, Copy, Debug, PartialEq, Eq)]
pub struct UnknownType(pub u8);

impl TryFrom<u8> for TransactionType {
    type Error = UnknownType;

    ghost try_from_gives = { Decodes };

    fn try_from(byte: u8) -> Result<Self, UnknownType> {
        match byte {
            0xC1 => Ok(TransactionType::Add),
            0xC2 => Ok(TransactionType::Rename),
            0xC3 => Ok(TransactionType::CaseId),
            0xC4 => Ok(TransactionType::Delete),
            0xD3 => Ok(TransactionType::LocalCode),
            0xD4 => Ok(TransactionType::Modify),
            0xD9 => Ok(TransactionType::Exclude),
            0xE2 => Ok(TransactionType::Payment),
            0xE3 => Ok(TransactionType::Transfer),
            0xE9 => Ok(TransactionType::Address),
            _ => Err(UnknownType(byte)),
        }
    }
}

impl From<TransactionType> for u8 {
    ghost from_gives = { λ t byte. byte ≡ type_byte t };

    fn from(transaction_type: TransactionType) -> u8 {
        match transaction_type {
            TransactionType::Add => 0xC1,
            TransactionType::Rename => 0xC2,
            TransactionType::CaseId => 0xC3,
            TransactionType::Delete => 0xC4,
            TransactionType::LocalCode => 0xD3,
            TransactionType::Modify => 0xD4,
            TransactionType::Exclude => 0xD9,
            TransactionType::Payment => 0xE2,
            TransactionType::Transfer => 0xE3,
            TransactionType::Address => 0xE9,
        }
    }
}

// A record's key: columns 1–2, 6–14 and 74.
pub fn record_key(rec: &[u8]) -> [u8; 12]
    requires { length rec.now ≡ 245 }
    ensures { result ≡ record_key rec.now }
{
    let mut key = [0u8; 12];
    fields::copy(&mut key, key::STATE, rec, chart_a1::SUBMITTING_STATE);
    fields::copy(&mut key, key::SSN, rec, chart_a1::SSN);
    fields::copy(&mut key, key::CASE_TYPE, rec, chart_a1::CASE_TYPE);
    key
}

// A record's type, if it is one of the ten.
pub fn type_of(rec: &[u8; 245]) -> Option<TransactionType>
    ensures { IsTypeOf rec.now result }
{
    TransactionType::try_from(rec[chart_a1::TYPE_AT]).ok()
}

// Whether a record is of a type.
pub fn is_type(rec: &[u8], transaction_type: TransactionType) -> bool
    requires { length rec.now ≡ 245 }
    ensures { result ≡ is_type (type_byte transaction_type) rec.now }
{
    rec[chart_a1::TYPE_AT] == u8::from(transaction_type)
}

// Whether a record is of one of the ten types.
pub fn is_known_type(rec: &[u8; 245]) -> bool
    ensures { result ≡ is_known_type rec.now }
{
    type_of(rec).is_some()
}
