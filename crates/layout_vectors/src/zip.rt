// Error 14's ZIP: nine digits, or five and four spaces.
use crate::lists;
use crate::lists::Subject;
use std::io;

pub fn vectors(rt: &impl Print) -> io::Result<()> {
    let nine =
        b"zip|443011234|44301    |000000000|99999    |         |4430     |443012   |44301123 ";
    lists::each(rt, Subject::Zip, nine)?;
    let broken =
        b"zip|44301 234|44301   4|4430 1234| 43011234|    44301|4430A    |44301-123|44301123A";
    lists::each(rt, Subject::Zip, broken)?;
    let lengths = b"zip|44301|44301   |44301     |4430112345||";
    lists::each(rt, Subject::Zip, lengths)
}
