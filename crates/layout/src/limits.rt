// The limit of the papers, named once.

// The most rows that a master may have, and the most details of a batch, lines of a collection file and records of a contact file.
pub const MAX_ROWS: usize = 16777215;

// A batch and a collection file have one record more.
pub const MAX_RECORDS: usize = 16777216;
