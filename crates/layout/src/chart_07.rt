// Chart 0-7: the control record of the reconciliation file, and its columns.
use text::fields::Columns;

pub const IDENTIFIER: Columns = Columns { first: 1, last: 3 };

pub const STATE: Columns = Columns { first: 4, last: 5 };

pub const TANF_CASES: Columns = Columns { first: 6, last: 14 };

pub const NON_TANF_CASES: Columns = Columns {
    first: 15,
    last: 23,
};

pub const TOTAL_CASES: Columns = Columns {
    first: 24,
    last: 32,
};

pub const EXTRACT_DATE: Columns = Columns {
    first: 33,
    last: 40,
};

pub const FILLER: Columns = Columns {
    first: 41,
    last: 245,
};
