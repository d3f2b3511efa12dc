// Chart A-3: the state/local contact phone and address record, and its columns.
use text::fields::Columns;

// A record has 220 bytes.
pub const CONTACT_WIDTH: usize = 220;

pub const STATE: Columns = Columns { first: 1, last: 2 };

pub const CODE: Columns = Columns { first: 3, last: 5 };

pub const TELEPHONE_1: Columns = Columns { first: 6, last: 19 };

pub const EXTENSION_1: Columns = Columns {
    first: 20,
    last: 23,
};

pub const TELEPHONE_2: Columns = Columns {
    first: 24,
    last: 37,
};

pub const EXTENSION_2: Columns = Columns {
    first: 38,
    last: 41,
};

pub const AGENCY_NAME: Columns = Columns {
    first: 42,
    last: 76,
};

pub const LINE_1: Columns = Columns {
    first: 77,
    last: 111,
};

pub const LINE_2: Columns = Columns {
    first: 112,
    last: 146,
};

pub const LINE_3: Columns = Columns {
    first: 147,
    last: 181,
};

pub const LINE_4: Columns = Columns {
    first: 182,
    last: 216,
};

pub const FILLER: Columns = Columns {
    first: 217,
    last: 220,
};
