// Chart 0-2: the control record of the reject file, and its columns.
use text::fields::Columns;

pub const STATE: Columns = Columns { first: 1, last: 2 };

pub const CONTROL: Columns = Columns { first: 3, last: 5 };

pub const TANF_ACCEPTED: Columns = Columns { first: 6, last: 14 };

pub const TANF_REJECTED: Columns = Columns {
    first: 15,
    last: 23,
};

pub const NON_TANF_ACCEPTED: Columns = Columns {
    first: 24,
    last: 32,
};

pub const NON_TANF_REJECTED: Columns = Columns {
    first: 33,
    last: 41,
};

pub const TANF_WARNING: Columns = Columns {
    first: 42,
    last: 50,
};

pub const NON_TANF_WARNING: Columns = Columns {
    first: 51,
    last: 59,
};

pub const FILLER: Columns = Columns {
    first: 60,
    last: 245,
};
