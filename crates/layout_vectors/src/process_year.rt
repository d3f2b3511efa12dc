// Error 13: line (b) of document 01's table and the years beside it.
use crate::lists;
use crate::lists::Subject;
use std::io;

fn in_year(rt: &impl Print, year: u64, texts: &[u8]) -> io::Result<()> {
    lists::each(rt, Subject::ProcessYear(year), texts)
}

pub fn vectors(rt: &impl Print) -> io::Result<()> {
    let years =
        b"process year in 2007|1999|2000|2001|2006|2007|2008|0000|9999|20 7|200A|    |200|20000||";
    in_year(rt, 2007, years)?;
    in_year(rt, 1900, b"process year in 1900|1892|1893")?;
    in_year(rt, 9999, b"process year in 9999|9991|9992|9999")?;
    in_year(rt, 3, b"process year in 3|0000|0003|0004")?;
    in_year(rt, 8, b"process year in 8|0000|0001")?;
    in_year(rt, 18446744073709551615, b"process year in 2^64-1|9999")
}
