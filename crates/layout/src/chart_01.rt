// Chart 0-1: the reject record, and its columns.
use text::fields::Columns;

pub const ERROR_CODES: Columns = Columns {
    first: 228,
    last: 239,
};

pub const STORED_NAME: Columns = Columns {
    first: 240,
    last: 243,
};

pub const FILLER: Columns = Columns {
    first: 244,
    last: 244,
};
