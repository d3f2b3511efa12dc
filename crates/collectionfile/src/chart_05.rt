// Chart 0-5, collection and adjustment control record (240 bytes): the columns that posting reads.
use text::fields::Columns;

pub const CONTROL: Columns = Columns { first: 6, last: 14 };

pub const ADJUSTMENTS: Columns = Columns {
    first: 35,
    last: 49,
};

pub const COLLECTIONS: Columns = Columns {
    first: 50,
    last: 64,
};
