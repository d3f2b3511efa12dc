// Cents, as the collection file has its amounts.
#[derive(Clone, Copy)]
pub struct Cents(pub u64);
