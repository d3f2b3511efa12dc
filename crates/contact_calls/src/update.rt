// Updates: what is answered, each place of the table with its key and mark, and the numbers in the list. Nines stand where nothing was
// written.
use crate::four;
use crate::four::least;
use answers::refusal::Refusal;
use contactupdate::update;
use contactupdate::update::Updated;
use std::io;
use vector_text::print;

fn show_answer(rt: &impl Print, answer: Result<Updated, Refusal>) -> io::Result<()> {
    match answer {
        Ok(done) => print!(rt; ": records {}, listed {};", done.records, done.listed),
        Err(refusal) => print!(rt; ": refused {};", refusal.number()),
    }
}

fn show_number(rt: &impl Print, number: u32) -> io::Result<()> {
    print::text(rt, b" ")?;
    print::number(rt, number as u64)
}

fn show_list(rt: &impl Print, list: &[u32; 4]) -> io::Result<()> {
    print::text(rt, b"; list")?;
    show_number(rt, list[0])?;
    show_number(rt, list[1])?;
    show_number(rt, list[2])?;
    show_number(rt, list[3])?;
    print::end(rt)
}

// What an update is tried on beside the records: the bytes and the count of the table, the bytes of the file, the numbers of the list.
#[derive(Clone, Copy)]
struct Sizes {
    table: usize,
    count: usize,
    file: usize,
    list: usize,
}

// The line of an update of the records of one list by those of another.
fn line(rt: &impl Print, name: &[u8], table: &[u8], file: &[u8], sizes: Sizes) -> io::Result<()> {
    let mut bytes = four::of_list(table);
    let records = four::of_list(file);
    let t = least(sizes.table, 880);
    let f = least(sizes.file, 880);
    let l = least(sizes.list, 4);
    let mut numbers = [9u32; 4];
    let answer = update::update(
        &mut bytes[0..t],
        sizes.count,
        &records[0..f],
        &mut numbers[0..l],
    );
    print::text(rt, name)?;
    show_answer(rt, answer)?;
    four::show(rt, &bytes)?;
    four::show_telephones(rt, &bytes)?;
    show_list(rt, &numbers)
}

// The same with a table of four places, and a list of four numbers.
fn roomy(rt: &impl Print, name: &[u8], table: &[u8], file: &[u8]) -> io::Result<()> {
    let sizes = Sizes {
        table: 880,
        count: (least(table.len(), 36) + 1) / 9,
        file: (least(file.len(), 36) + 1) / 9 * 220,
        list: 4,
    };
    line(rt, name, table, file, sizes)
}

// The same with a table of some places.
fn narrow(
    rt: &impl Print,
    name: &[u8],
    table: &[u8],
    file: &[u8],
    places: usize,
) -> io::Result<()> {
    let sizes = Sizes {
        table: least(places, 4) * 220,
        count: (least(table.len(), 36) + 1) / 9,
        file: (least(file.len(), 36) + 1) / 9 * 220,
        list: 4,
    };
    line(rt, name, table, file, sizes)
}

fn sized(
    rt: &impl Print,
    name: &[u8],
    table: usize,
    count: usize,
    file: usize,
    list: usize,
) -> io::Result<()> {
    let sizes = Sizes {
        table,
        count,
        file,
        list,
    };
    line(rt, name, b"OH001OLD OH003OLD", b"OH001ONE OH003TWO", sizes)
}

fn carried_out(rt: &impl Print) -> io::Result<()> {
    roomy(
        rt,
        b"falling order into an empty table",
        b"",
        b"OH002NEW OH001NEW",
    )?;
    narrow(rt, b"full to the byte", b"", b"OH002NEW OH001NEW", 2)?;
    roomy(rt, b"empty file", b"OH001OLD OH002OLD", b"")?;
    narrow(rt, b"empty file, empty table", b"", b"", 0)?;
    roomy(
        rt,
        b"one replaced, one added between",
        b"OH001OLD OH003OLD",
        b"OH002NEW OH001NEW",
    )?;
    roomy(
        rt,
        b"repeated key, the last stays",
        b"OH001OLD OH003OLD",
        b"OH001ONE OH001TWO",
    )?;
    roomy(
        rt,
        b"other states around",
        b"OH001OLD OH003OLD",
        b"WY000NEW AK999NEW",
    )?;
    roomy(
        rt,
        b"the state's own, 000",
        b"OH001OLD OH003OLD",
        b"OH000OWN",
    )?;
    roomy(rt, b"replaced whole", b"OH001ALL", b"OH001NEW")?;
    roomy(
        rt,
        b"replaced whole, the other way",
        b"OH001OLD",
        b"OH001ALL",
    )
}

fn faulty_records(rt: &impl Print) -> io::Result<()> {
    roomy(
        rt,
        b"first and third faulty",
        b"OH001OLD OH003OLD",
        b"OH002BAD OH002NEW OH003BAD",
    )?;
    roomy(
        rt,
        b"a faulty one undoes nothing",
        b"OH001OLD OH003OLD",
        b"OH001NEW OH001BAD",
    )?;
    roomy(
        rt,
        b"all faulty",
        b"OH001OLD OH003OLD",
        b"OH001BAD OH003BAD",
    )
}

// Refusal 18, in the order of its sentence.
fn refused_18(rt: &impl Print) -> io::Result<()> {
    sized(rt, b"file of 439 bytes", 880, 2, 439, 4)?;
    sized(rt, b"table of 879 bytes", 879, 2, 440, 4)?;
    sized(rt, b"count above the table's length", 440, 3, 440, 4)?;
    roomy(
        rt,
        b"faulty record in the table",
        b"OH001OLD OH003BAD",
        b"OH001NEW",
    )?;
    roomy(rt, b"table out of order", b"OH003OLD OH001OLD", b"OH001NEW")?;
    roomy(
        rt,
        b"a key twice in the table",
        b"OH001OLD OH001OLD",
        b"OH001NEW",
    )
}

// Refusal 19: space for every record whose key the table lacks, then the list.
fn refused_19(rt: &impl Print) -> io::Result<()> {
    narrow(
        rt,
        b"one new key, no space",
        b"OH001OLD OH003OLD",
        b"OH002NEW",
        2,
    )?;
    narrow(
        rt,
        b"a new key twice, space for one",
        b"OH001OLD OH003OLD",
        b"OH002ONE OH002TWO",
        3,
    )?;
    narrow(
        rt,
        b"a new key twice, space for two",
        b"OH001OLD OH003OLD",
        b"OH002ONE OH002TWO",
        4,
    )?;
    narrow(
        rt,
        b"a faulty record of a new key, no space",
        b"OH001OLD OH003OLD",
        b"OH002BAD",
        2,
    )?;
    narrow(
        rt,
        b"a record of no state, no space",
        b"OH001OLD OH003OLD",
        b"ZZ002NEW",
        2,
    )?;
    narrow(
        rt,
        b"a record of no state, space",
        b"OH001OLD OH003OLD",
        b"ZZ002NEW",
        3,
    )?;
    narrow(
        rt,
        b"a faulty record of an old key, no space",
        b"OH001OLD OH003OLD",
        b"OH003BAD",
        2,
    )?;
    sized(rt, b"list shorter than the records", 880, 2, 440, 1)?;
    sized(rt, b"list as long as the records", 880, 2, 440, 2)
}

pub fn vectors(rt: &impl Print) -> io::Result<()> {
    carried_out(rt)?;
    faulty_records(rt)?;
    refused_18(rt)?;
    refused_19(rt)
}
