// Sets of codes: the sum of 2 to the power c over the codes c, and the columns of the six lowest.
use crate::ebcdic;
use layout::codes::{codes_text, lowest, without_lowest, written};
use std::io;
use vector_text::print;

fn set(rt: &impl Print, label: &[u8], set: u64) -> io::Result<()> {
    print::text(rt, label)?;
    print!(rt; " written {} ", written(set))?;
    let text = codes_text(set);
    ebcdic::columns(rt, &text)
}

fn first(rt: &impl Print, label: &[u8], set: u64) -> io::Result<()> {
    print::text(rt, label)?;
    if set > 0 {
        print!(rt;
            " lowest {}, without it {}",
            lowest(set),
            without_lowest(set)
        )?;
    }
    print::end(rt)
}

fn errors(rt: &impl Print) -> io::Result<()> {
    set(rt, b"codes {}", 0)?;
    set(rt, b"codes {1}", 2)?;
    set(rt, b"codes {9,10}", 1536)?;
    set(rt, b"codes {17}", 131072)?;
    set(rt, b"codes {1,2,3,4,5}", 62)?;
    set(rt, b"codes {1,2,3,4,5,6}", 126)?;
    set(rt, b"codes {1,2,3,4,5,6,7}", 254)?;
    set(rt, b"codes {2,7,11,14,15,17,18}", 444548)
}

pub fn vectors(rt: &impl Print) -> io::Result<()> {
    errors(rt)?;
    set(rt, b"codes {51}", 2251799813685248)?;
    set(rt, b"codes {51,52}", 6755399441055744)?;
    first(rt, b"codes {1}", 2)?;
    first(rt, b"codes {3,18}", 262152)?;
    first(rt, b"codes {1,2,3,4,5,6,7}", 254)?;
    first(rt, b"codes {51,52}", 6755399441055744)
}
