// Chart 0-4, collection and adjustment record (240 bytes): the columns that posting reads.
use text::fields::Columns;

pub const STATE: Columns = Columns { first: 1, last: 2 };

pub const SSN: Columns = Columns { first: 6, last: 14 };

pub const COLLECTION: Columns = Columns {
    first: 76,
    last: 86,
};

pub const ADJUSTMENT: Columns = Columns {
    first: 87,
    last: 97,
};

pub const CASE_TYPE: Columns = Columns {
    first: 107,
    last: 107,
};
