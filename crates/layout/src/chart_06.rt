// Chart 0-6: the reconciliation record, and its columns.
use text::fields::Columns;

pub const IDENTIFIER: Columns = Columns { first: 1, last: 3 };

pub const STATE: Columns = Columns { first: 4, last: 5 };

pub const LOCAL_CODE: Columns = Columns { first: 6, last: 8 };

pub const SSN: Columns = Columns { first: 9, last: 17 };

pub const CASE_ID: Columns = Columns {
    first: 18,
    last: 32,
};

pub const LAST_NAME: Columns = Columns {
    first: 33,
    last: 52,
};

pub const FIRST_NAME: Columns = Columns {
    first: 53,
    last: 62,
};

pub const ARREARAGE: Columns = Columns {
    first: 63,
    last: 70,
};

pub const CASE_TYPE: Columns = Columns {
    first: 71,
    last: 71,
};

pub const NOTICE_DATE: Columns = Columns {
    first: 72,
    last: 79,
};

pub const EXCLUSIONS: Columns = Columns {
    first: 82,
    last: 105,
};

pub const FILLER: Columns = Columns {
    first: 106,
    last: 245,
};
