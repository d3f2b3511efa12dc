// Records: a good one, and a change for each rule at its edges.
use crate::lists;
use contactrecord::chart_a3;
use contactrecord::contact::is_faulty;
use std::io;
use text::fields::Columns;
use vector_text::ebcdic::write;
use vector_text::print;

// The name, and all that stands behind it: texts that run over the end of a field.
const NAME_ON: Columns = Columns {
    first: 42,
    last: 216,
};

// Lines 1 to 3.
const LINES: Columns = Columns {
    first: 77,
    last: 181,
};

// Writes a text in EBCDIC over a field, spaces behind it.
fn fill(text: &[u8], field: &mut [u8]) {
    write(&[0x20u8; 220], field);
    write(text, field);
}

// The record with a text in some columns.
fn with(mut rec: [u8; 220], columns: Columns, text: &[u8]) -> [u8; 220] {
    let last = columns.last;
    if columns.first >= 1 {
        let at = columns.first - 1;
        if at <= last {
            if last <= 220 {
                fill(text, &mut rec[at..last]);
            }
        }
    }
    rec
}

// A good record.
fn good() -> [u8; 220] {
    let rec = with([0x40u8; 220], chart_a3::STATE, b"OH");
    let rec = with(rec, chart_a3::CODE, b"001");
    let rec = with(rec, chart_a3::TELEPHONE_1, b"(301) 555-1212");
    let rec = with(rec, chart_a3::AGENCY_NAME, b"BUREAU OF CHILD SUPPORT");
    let rec = with(rec, chart_a3::LINE_1, b"1 MAIN STREET");
    with(rec, chart_a3::LINE_4, b"COLUMBUS OH 43215")
}

// Whether the good record with a text in some columns is good.
pub fn is_good_with(columns: Columns, text: &[u8]) -> bool {
    let rec = with(good(), columns, text);
    !is_faulty(&rec)
}

fn keys(rt: &impl Print) -> io::Result<()> {
    lists::each(
        rt,
        chart_a3::STATE,
        b"good record, state|OH|AK|WY|ZZ|O |oh|  ",
    )?;
    lists::each(
        rt,
        chart_a3::CODE,
        b"good record, code|000|001|999|A00|0 0|00A|-01|   ",
    )
}

fn telephones(rt: &impl Print) -> io::Result<()> {
    lists::each(
        rt,
        chart_a3::TELEPHONE_1,
        b"good record, telephone 1|(301) 555-1212|(000) 000-0000|1301) 555-1212|(A01) 555-1212|(3 1) 555-1212|(30-) 555-1212|(301( 555-1212|(301)-555-1212|(301) A55-1212|(301) 5 5-1212|(301) 55--1212|(301) 555 1212|(301) 555-A212|(301) 555-1 12|(301) 555-12A2|(301) 555-121 | (301) 555-121|301-555-1212|              ",
    )?;
    lists::each(
        rt,
        chart_a3::TELEPHONE_2,
        b"good record, telephone 2|(800) 555-1212|              |(800) 555-121 |             2|(800)  55-1212",
    )
}

fn extensions(rt: &impl Print) -> io::Result<()> {
    lists::each(
        rt,
        chart_a3::EXTENSION_1,
        b"good record, extension 1|    |1   |12  |123 |1234|0000| 123|1  2|12 4|   4|A   |12A |1-  ",
    )?;
    lists::each(
        rt,
        chart_a3::EXTENSION_2,
        b"good record, extension 2|    |7   |1234|1  2|  1 |X   ",
    )
}

fn agency_names(rt: &impl Print) -> io::Result<()> {
    lists::each(
        rt,
        chart_a3::AGENCY_NAME,
        b"good record, agency name|CHILD SUPPORT|FAMILY SUPPORT|ACHILD SUPPORTS|CHILD  SUPPORT|CHILDSUPPORT|CHILD-SUPPORT|CHILD SUPPOR|SUPPORT CHILD|FAMILY  SUPPORT|FAMILY SUPPOR|child support|CHILD FAMILY SUPPORT|OFFICE OF THE STATE OFCHILD SUPPORT| ",
    )?;
    lists::each(
        rt,
        NAME_ON,
        b"good record, name and line 1|OFFICE OF THE STATES OFCHILD SUPPORT",
    )
}

fn words(rt: &impl Print) -> io::Result<()> {
    lists::each(
        rt,
        chart_a3::AGENCY_NAME,
        b"good record, words in the name|CHILD SUPPORT IRS|IRS CHILD SUPPORT|CHILD SUPPORT FMS|CHILD SUPPORT IRSA|CHILD SUPPORT FIRS|CHILD SUPPORT FIRST|CHILD SUPPORT 1IRS2|CHILD SUPPORT (FMS)|CHILD SUPPORT IRSIRS|CHILD SUPPORT I R S|CHILD SUPPORT IR|CHILD SUPPORT RS|CHILD SUPPORT irs|CHILD SUPPORT IRSs|CHILD SUPPORT IRS-FMS|CHILD SUPPORT                   IRS|CHILD SUPPORT                  FIRS",
    )?;
    lists::each(
        rt,
        chart_a3::LINE_1,
        b"good record, words in line 1|IRS|IRSA|1IRS2|FMS BUILDING|FIRS STREET|                                IRS",
    )?;
    lists::each(
        rt,
        chart_a3::LINE_2,
        b"good record, words in line 2|IRS|FMSA|FMS",
    )?;
    lists::each(
        rt,
        chart_a3::LINE_3,
        b"good record, words in line 3|IRS|AFMS|FMS",
    )?;
    lists::each(
        rt,
        chart_a3::LINE_4,
        b"good record, words in line 4|IRS|OFFICE 4|FMS",
    )
}

// A run ends with its field.
fn fields_end(rt: &impl Print) -> io::Result<()> {
    let name = chart_a3::AGENCY_NAME;
    let split = with(
        with(good(), name, b"CHILD SUPPORT                    IR"),
        chart_a3::LINE_1,
        b"S STREET",
    );
    print::text(
        rt,
        b"good record, IR at the end of the name and S at the start of line 1 ",
    )?;
    print::answer(rt, !is_faulty(&split))?;
    let whole = with(
        with(good(), name, b"CHILD SUPPORT                   IRS"),
        chart_a3::LINE_1,
        b"A STREET",
    );
    print::text(
        rt,
        b"good record, IRS at the end of the name and A at the start of line 1 ",
    )?;
    print::answer(rt, !is_faulty(&whole))
}

fn addresses(rt: &impl Print) -> io::Result<()> {
    lists::each(
        rt,
        chart_a3::LINE_1,
        b"good record, line 1|X|                                  X| ",
    )?;
    let bare = with(good(), LINES, b"");
    print::text(rt, b"good record, lines 1 to 3 blank ")?;
    print::answer(rt, !is_faulty(&bare))?;
    let two = with(bare, chart_a3::LINE_2, b"BOX 7");
    print::text(rt, b"good record, line 2 alone ")?;
    print::answer(rt, !is_faulty(&two))?;
    let three = with(
        bare,
        chart_a3::LINE_3,
        b"                                  .",
    );
    print::text(rt, b"good record, line 3 alone ")?;
    print::answer(rt, !is_faulty(&three))?;
    lists::each(rt, chart_a3::LINE_4, b"good record, line 4|X|43215| ")?;
    lists::each(
        rt,
        chart_a3::FILLER,
        b"good record, filler|    |X   | 0  |   -",
    )
}

pub fn vectors(rt: &impl Print) -> io::Result<()> {
    keys(rt)?;
    telephones(rt)?;
    extensions(rt)?;
    agency_names(rt)?;
    words(rt)?;
    fields_end(rt)?;
    addresses(rt)
}
