// A detail's name, whether it gives it, and the rest of its number in one, while the details of one key are sorted by name:
//
//                  bits 63 to 32             bit 31                        bits 30 to 0
//   code           the name's four bytes     0 where the detail gives it   bits 31 to 1 of the detail's number
//
//                  bits 63 to 32   bits 31 to 1   bit 0
//   swept          rank            the same       1 where the name is given
ghost use Rattle.std.specs.Prelude.{◌≡◌, cond, map, ◌+◌, ◌*◌, ◌/◌, ◌%◌, ◌^◌, ◌≤◌, ◌<◌, eqb, length};
ghost use Rattle.text.specs.ByteNumbers.{bytes_number};
ghost use Rattle.keyorder.specs.Tagged.{index_part, flag_gives, record_of};
ghost use Rattle.judging.specs.Names.{gives_name};
ghost use Rattle.namemarks.specs.Marks.{name_at, HoldRecords};
ghost use Rattle.namemarks.specs.Codes.{name_code, swept, NotFalling};

use keyorder::tagged;
use layout::records::RECORD_WIDTH;
use text::words;

// 2 to the power 32: the lowest bit of the name, and of the rank.
const NAME_PLACE: u64 = 0x100000000;

// 2 to the power 31: how many rests there are.
const RESTS: u64 = 0x80000000;

// Bit 31 of a detail that gives its name: it comes before those of the name that don't.
const GIVING: u64 = 0;

// The name of the record at place i, columns 30–33, as a number.
fn name_at(batch: &[u8], i: usize) -> u64
    requires { i * 245 + 245 ≤ length batch.now }
    ensures { (result ≡ bytes_number (name_at batch.now i)) × (result < 2 ^ 32) }
{
    words::bytes_number::<4>(batch, i * RECORD_WIDTH + 29)
}

// Bit 31 of a detail's code.
fn giving_bit(gives: bool) -> u64
    ensures { (result ≡ cond gives 0 1) × (result ≤ 1) }
{
    if gives { GIVING } else { 1 - GIVING }
}

// The code of a detail.
fn code(batch: &[u8], state: &[u8], number: u64) -> u64
    requires { (index_part number * 245 + 245 ≤ length batch.now) × (flag_gives number ≡ gives_name state.now (record_of batch.now number)) }
    ensures { result ≡ name_code state.now batch.now number }
{
    let i = tagged::index_part(number);
    let name = name_at(batch, i);
    let giving = giving_bit(tagged::flag_gives(number));
    name * NAME_PLACE + giving * RESTS + number / 2 % RESTS
}

// Writes the code of each detail.
pub fn code_all(batch: &[u8], state: &[u8], numbers: &mut [u64])
    requires { HoldRecords state.now batch.now numbers.old }
    ensures { numbers.new ≡ map (name_code state.now batch.now) numbers.old }
{
    for number in numbers.iter_mut() {
        *number = code(batch, state, *number);
    }
}

// The last name given up to code x, where `given` was the last before it, as one more than what stands above its rest; 0 for none.
fn given_by(x: u64, given: u64) -> u64
    ensures { result ≡ cond (eqb (x / 2 ^ 31 % 2) 0) (x / 2 ^ 31 + 1) given }
{
    if x / RESTS % 2 == GIVING {
        x / RESTS + 1
    } else {
        given
    }
}

// 1 where the name of code x is the last given, else 0.
fn one_if_given(x: u64, given: u64) -> u64
    ensures { (result ≡ cond (eqb (x / 2 ^ 32 * 2 + 1) given) 1 0) × (result ≤ 1) }
{
    if x / NAME_PLACE * 2 + 1 == given {
        1
    } else {
        0
    }
}

// A detail's number again, from its rank, its code and its mark.
fn restored(rank: u64, x: u64, one: u64) -> u64
    requires { (rank ≤ 2 ^ 31) × (one ≤ 1) }
    ensures { result ≡ rank * 2 ^ 32 + x % 2 ^ 31 * 2 + one }
{
    rank * NAME_PLACE + x % RESTS * 2 + one
}

// Leaves of each code, none of which falls, the rest below the rank, and 1 beside it where the name is given.
pub fn sweep(rank: u64, numbers: &mut [u64])
    requires { (rank ≤ 2 ^ 31) × NotFalling (length numbers.old) numbers.old }
    ensures { numbers.new ≡ map (swept rank numbers.old) numbers.old }
{
    let mut given: u64 = 0;
    for number in numbers.iter_mut() {
        let x = *number;
        given = given_by(x, given);
        *number = restored(rank, x, one_if_given(x, given));
    }
}
