// Error 15: line (e) of document 01's table and the dates beside it.
use crate::lists;
use crate::lists::Subject;
use dates::calendar::{days_in, is_day, is_leap};
use std::io;
use vector_text::print;

fn dates(rt: &impl Print, texts: &[u8]) -> io::Result<()> {
    lists::each(rt, Subject::Date, texts)
}

fn leap(rt: &impl Print, year: u64) -> io::Result<()> {
    print!(rt; "leap {year} ")?;
    print::answer(rt, is_leap(year))
}

fn days(rt: &impl Print, year: u64, month: u64) -> io::Result<()> {
    println!(rt; "days of {year}-{month} {}", days_in(year, month))
}

fn day(rt: &impl Print, year: u64, month: u64, day: u64) -> io::Result<()> {
    print!(rt; "day {year}-{month}-{day} ")?;
    print::answer(rt, is_day(year, month, day))
}

fn numbers(rt: &impl Print) -> io::Result<()> {
    leap(rt, 1900)?;
    leap(rt, 2000)?;
    leap(rt, 2004)?;
    leap(rt, 2007)?;
    days(rt, 2007, 2)?;
    days(rt, 2008, 2)?;
    days(rt, 2100, 2)?;
    days(rt, 2007, 4)?;
    days(rt, 2007, 12)?;
    day(rt, 1899, 12, 31)?;
    day(rt, 1900, 1, 1)?;
    day(rt, 9999, 12, 31)?;
    day(rt, 10000, 1, 1)?;
    day(rt, 2007, 0, 1)?;
    day(rt, 2007, 13, 1)
}

pub fn vectors(rt: &impl Print) -> io::Result<()> {
    dates(
        rt,
        b"date|20000229|19000229|19000228|19040229|20010229|20010228|20040229|20040230",
    )?;
    dates(rt, b"date|21000229|24000229|99960229|99990229")?;
    // ends of months
    dates(
        rt,
        b"date|20070131|20070132|20070331|20070332|20070430|20070431|20070531|20070532",
    )?;
    dates(
        rt,
        b"date|20070630|20070631|20070731|20070732|20070831|20070832|20070930|20070931",
    )?;
    dates(
        rt,
        b"date|20071031|20071032|20071130|20071131|20071231|20071232",
    )?;
    // limits of month, day and year
    dates(
        rt,
        b"date|20070015|20070115|20071215|20071315|20070100|20070101|20070199",
    )?;
    dates(rt, b"date|18991231|19000101|99991231|00000000|00010101")?;
    // not eight digits
    dates(
        rt,
        b"date|2007010|200701011|        |2007 101| 2007101|2007010 |2007010A|2007-1-1||",
    )?;
    numbers(rt)
}
