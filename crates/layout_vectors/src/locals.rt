// The list of local codes: its form, and which codes are listed.
use crate::lists;
use crate::lists::Subject;
use layout::locals::LocalCodes;
use std::io;
use vector_text::print;

// Whether a code is one of a list, which is looked through in the way that its order allows.
fn is_in(code: &[u8], list: &[u8]) -> bool {
    LocalCodes::new(list).contains(code)
}

// Whether a code is one of 001, 005 and 009.
pub fn is_listed(code: &[u8]) -> bool {
    is_in(code, b"\xF0\xF0\xF1\xF0\xF0\xF5\xF0\xF0\xF9")
}

pub fn vectors(rt: &impl Print) -> io::Result<()> {
    let right = b"local list||000|123|999|001002|001002999|099100";
    lists::each(rt, Subject::LocalList, right)?;
    let order = b"local list|100099|001001|002001|001003003|001003002";
    lists::each(rt, Subject::LocalList, order)?;
    let form = b"local list|00A|A00|00100B|   |0 1002|00|0010|00100|0010020";
    lists::each(rt, Subject::LocalList, form)?;
    let codes = b"listed in 001005009|001|005|009|000|002|999|100|500|   |1  |00A|00|0010||";
    lists::each(rt, Subject::Listed, codes)?;
    print::text(rt, b"001 listed in nothing ")?;
    print::answer(rt, is_in(b"\xF0\xF0\xF1", b""))
}
