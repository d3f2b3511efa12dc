// Chart A-2: the control record of a batch, and its columns.
use text::fields::Columns;

pub const STATE: Columns = Columns { first: 1, last: 2 };

pub const CONTROL: Columns = Columns { first: 3, last: 5 };

pub const TOTAL_TANF: Columns = Columns { first: 6, last: 14 };

pub const TOTAL_NON_TANF: Columns = Columns {
    first: 15,
    last: 23,
};

pub const AMOUNT_TANF: Columns = Columns {
    first: 24,
    last: 34,
};

pub const AMOUNT_NON_TANF: Columns = Columns {
    first: 35,
    last: 45,
};

pub const FILLER: Columns = Columns {
    first: 46,
    last: 245,
};
