// Chart A-1: the case submission and update record, and its columns.
use text::fields::Columns;

pub const SUBMITTING_STATE: Columns = Columns { first: 1, last: 2 };

pub const LOCAL_CODE: Columns = Columns { first: 3, last: 5 };

pub const SSN: Columns = Columns { first: 6, last: 14 };

pub const CASE_ID: Columns = Columns {
    first: 15,
    last: 29,
};

pub const LAST_NAME: Columns = Columns {
    first: 30,
    last: 49,
};

pub const NAME_FRONT: Columns = Columns {
    first: 30,
    last: 33,
};

pub const FIRST_NAME: Columns = Columns {
    first: 50,
    last: 64,
};

pub const ARREARAGE: Columns = Columns {
    first: 65,
    last: 72,
};

pub const TRANSACTION_TYPE: Columns = Columns {
    first: 73,
    last: 73,
};

// Where the type's byte stands in a record.
pub const TYPE_AT: usize = 72;

pub const CASE_TYPE: Columns = Columns {
    first: 74,
    last: 74,
};

// Where the case type's byte stands.
pub const CASE_TYPE_AT: usize = 73;

pub const TRANSFER_STATE: Columns = Columns {
    first: 75,
    last: 76,
};

pub const TRANSFER_LOCAL_CODE: Columns = Columns {
    first: 77,
    last: 79,
};

pub const PROCESS_YEAR: Columns = Columns {
    first: 80,
    last: 83,
};

pub const LINE_1: Columns = Columns {
    first: 84,
    last: 113,
};

pub const LINE_2: Columns = Columns {
    first: 114,
    last: 143,
};

pub const CITY: Columns = Columns {
    first: 144,
    last: 168,
};

pub const ADDRESS_STATE: Columns = Columns {
    first: 169,
    last: 170,
};

pub const ZIP: Columns = Columns {
    first: 171,
    last: 179,
};

pub const ADDRESS: Columns = Columns {
    first: 84,
    last: 179,
};

pub const DATE_ISSUED: Columns = Columns {
    first: 180,
    last: 187,
};

pub const EXCLUSIONS: Columns = Columns {
    first: 188,
    last: 227,
};

pub const FILLER: Columns = Columns {
    first: 228,
    last: 244,
};
