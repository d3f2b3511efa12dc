// What a record is judged beside.
use layout::locals::LocalCodes;

// The control record's state, the year and the list of local codes.
#[derive(Clone, Copy)]
pub struct Setting<'a> {
    pub state: &'a [u8],
    pub year: u64,
    pub locals: LocalCodes<'a>,
}
