// Error 16: line (d) of document 01's table and the words beside it, in a field of forty columns; and the columns of a set.
use crate::lists::Subject;
use crate::{ebcdic, lists};
use exclusionsets::exclusions::{exclusion_columns, read_exclusions};
use std::io;
use vector_text::print;

// What a field's words give.
pub fn read(rt: &impl Print, field: &[u8]) -> io::Result<()> {
    match read_exclusions(field) {
        Some(set) => println!(rt; "{set}"),
        None => println!(rt; "failure"),
    }
}

fn raw(rt: &impl Print, field: &[u8]) -> io::Result<()> {
    print::text(rt, b"words ")?;
    print::hex(rt, field)?;
    print::text(rt, b" ")?;
    read(rt, field)
}

fn columns(rt: &impl Print, set: u8) -> io::Result<()> {
    print!(rt; "exclusion columns {set} ")?;
    let columns = exclusion_columns(set);
    ebcdic::columns(rt, &columns)
}

fn words(rt: &impl Print) -> io::Result<()> {
    let table = b"words|RET,PAS FIN|,,TAX|RETPAS|                                        ";
    lists::each(rt, Subject::Words, table)?;
    let names = b"words|ADM|RET|VEN|SAL|TAX|PAS|FIN|DCK";
    lists::each(rt, Subject::Words, names)?;
    let twice = b"words|ADM,ADM ADM|FIN RET FIN,RET|ADM,,  DCK|DCK,,  ADM| SAL|, ,,  ,";
    lists::each(rt, Subject::Words, twice)?;
    let with_adm = b"words|ADM RET|RET ADM|ADM,VEN|SAL ADM|ADM TAX|PAS,ADM|ADM FIN|DCK ADM";
    lists::each(rt, Subject::Words, with_adm)?;
    let last =
        b"words|                                     DCK|,,,,,,,,,,,,,,,,,,,,,,,,,,,,,,,,,,,,,VEN";
    lists::each(rt, Subject::Words, last)?;
    let all = b"words|ADM RET VEN SAL TAX PAS FIN DCK|ADM,RET,VEN,SAL,TAX,PAS,FIN,DCK,ADM,,RET";
    lists::each(rt, Subject::Words, all)
}

// Words that are none of the eight.
fn other_words(rt: &impl Print) -> io::Result<()> {
    let texts = b"words|RET,VEN,XYZ|XYZ,RET|RE|RETX|XRET|R ET|RET-PAS|ret|123";
    lists::each(rt, Subject::Words, texts)?;
    let last =
        b"words|                                      DC|ADM,RET,VEN,SAL,TAX,PAS,FIN,DCK,ADM,,REX";
    lists::each(rt, Subject::Words, last)?;
    raw(rt, b"\xD9\xC5\xE3\x00")?;
    raw(rt, b"\xD9\xC5\xE3")
}

pub fn vectors(rt: &impl Print) -> io::Result<()> {
    words(rt)?;
    other_words(rt)?;
    columns(rt, 0)?;
    columns(rt, 1)?;
    columns(rt, 98)?;
    columns(rt, 130)?;
    columns(rt, 255)
}
