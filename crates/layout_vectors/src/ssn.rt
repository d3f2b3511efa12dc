// Error 02: line (f) of document 01's table and the SSNs beside it.
use crate::lists;
use crate::lists::Subject;
use std::io;

pub fn vectors(rt: &impl Print) -> io::Result<()> {
    let table = b"wrong ssn|123456789|666123456|123004567|900000000";
    lists::each(rt, Subject::Ssn, table)?;
    let areas =
        b"wrong ssn|000123456|001010001|066123456|665123456|667123456|899010001|900123456|999999999";
    lists::each(rt, Subject::Ssn, areas)?;
    let groups = b"wrong ssn|123014567|123104567|123450000|123450001|123451000|899001234|899120000";
    lists::each(rt, Subject::Ssn, groups)?;
    let nines = b"wrong ssn|900001234|900120000|999000000|000000001|000000000";
    lists::each(rt, Subject::Ssn, nines)?;
    let other =
        b"wrong ssn|12345678A|A23456789|1234 6789|9000-0000|90000000A|         |12345678|1234567890||";
    lists::each(rt, Subject::Ssn, other)
}
