// Keys: soundness, and byte order, in which letters stand below digits.
use crate::lists;
use crate::lists::Subject;
use std::cmp::Ordering;
use std::io;
use text::byte_order::{is_below, is_rising, order_of};
use vector_text::ebcdic::write;
use vector_text::print;

fn stand(rt: &impl Print, a: &[u8; 12], b: &[u8; 12]) -> io::Result<()> {
    match order_of(a, b) {
        Ordering::Less => print::text(rt, b"less, below ")?,
        Ordering::Equal => print::text(rt, b"equal, below ")?,
        Ordering::Greater => print::text(rt, b"greater, below ")?,
    }
    print::answer(rt, is_below(a, b))
}

// How two keys stand, of which the second is written a space behind the first.
pub fn order(rt: &impl Print, text: &[u8]) -> io::Result<()> {
    if text.len() == 25 {
        let mut a = [0u8; 12];
        let mut b = [0u8; 12];
        write(&text[0..12], &mut a);
        write(&text[13..25], &mut b);
        stand(rt, &a, &b)?;
    }
    Ok(())
}

// Whether the first n blocks of three columns rise by their first two.
pub fn is_rising_by_two(s: &[u8; 40], n: usize) -> bool {
    if n > 3 {
        return false;
    }
    is_rising(s, n, 3, 2)
}

fn sound_keys(rt: &impl Print) -> io::Result<()> {
    let right = b"sound key|OH123456789N|OH123456789A|AK900000000A|WY001010001N";
    lists::each(rt, Subject::Key, right)?;
    let parts =
        b"sound key|ZZ123456789N|oh123456789N|OH666123456N|OH123004567N|OH000000000A|OH12345678AN";
    lists::each(rt, Subject::Key, parts)?;
    let types = b"sound key|OH123456789B|OH123456789 |OH123456789a|OH123456789O|            ";
    lists::each(rt, Subject::Key, types)?;
    let lengths = b"sound key|OH12345678N|OH123456789|OH1234567890N|OH123456789N ||";
    lists::each(rt, Subject::Key, lengths)
}

fn orders(rt: &impl Print) -> io::Result<()> {
    let types =
        b"order|OH123456789A OH123456789N|OH123456789N OH123456789A|OH123456789N OH123456789N";
    lists::each(rt, Subject::Order, types)?;
    let numbers =
        b"order|AK999999999N OH001010001A|OH900000000A OH123456789N|OH999999999N OK001010001A";
    lists::each(rt, Subject::Order, numbers)?;
    let letters =
        b"order|AZ123456789N A0123456789N|OI123456789N OJ123456789N|OR123456789N OS123456789N";
    lists::each(rt, Subject::Order, letters)?;
    let others =
        b"order|Oa123456789N OA123456789N|O 123456789N O-123456789N|O,123456789N O-123456789N";
    lists::each(rt, Subject::Order, others)
}

fn rising_blocks(rt: &impl Print) -> io::Result<()> {
    lists::each(rt, Subject::Rising(1), b"one block rising|OH1|OK1OH1")?;
    let two = b"two blocks rising|OH1OK1|OK1OH1|OH1OH2|OH1OK1OH1";
    lists::each(rt, Subject::Rising(2), two)?;
    let three = b"three blocks rising|OH9OK1OR0|OH1OR1OK1|OH1OH1OK1|OH1OK1OK2";
    lists::each(rt, Subject::Rising(3), three)
}

pub fn vectors(rt: &impl Print) -> io::Result<()> {
    sound_keys(rt)?;
    orders(rt)?;
    rising_blocks(rt)
}
