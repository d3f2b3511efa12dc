// The C functions that turn a file from ASCII into EBCDIC and back: each returns 0, 16 or 17, and writes the place with 16 alone. Every
// argument may be anything that its type can hold.
ghost use Rattle.std.specs.Prelude.{◌≡◌};
ghost use Rattle.codepage.specs.CodePage.{ebcdic_of, ascii_of};
ghost use Rattle.std.proofs.Math.Option.{get_or};
ghost use Rattle.answers.specs.Answer.{refusal_number};
ghost use Rattle.codepage.specs.Conversion.{conversion_answer, place_told};
ghost use Rattle.fantanolive.specs.CodepageCalls.{conversion_left};

use codepage::conversion;
use codepage::conversion::ConversionError;

// The number of an answer; with 16 the place is written.
fn told(answer: Result<(), ConversionError>, place: &mut u64) -> u64
    ensures { (result ≡ refusal_number (conversion_answer answer)) × (place.new ≡ get_or (place_told answer) place.old) }
{
    match answer {
        Ok(()) => 0,
        Err(ConversionError::NoCounterpart(p)) => {
            *place = p as u64;
            16
        }
        Err(ConversionError::TooShort) => 17,
    }
}

// Turns ASCII into EBCDIC.
#[unsafe(no_mangle)]
pub extern "C" fn fantanolive_to_ebcdic(input: &[u8], out: &mut [u8], place: &mut u64) -> u64
    ensures { record { number = result; numbers = place.new; buffers = out.new }
        ≡ conversion_left ebcdic_of input.now out.old place.old }
{
    let answer = conversion::to_ebcdic(input, out);
    told(answer, place)
}

// Turns EBCDIC into ASCII.
#[unsafe(no_mangle)]
pub extern "C" fn fantanolive_to_ascii(input: &[u8], out: &mut [u8], place: &mut u64) -> u64
    ensures { record { number = result; numbers = place.new; buffers = out.new }
        ≡ conversion_left ascii_of input.now out.old place.old }
{
    let answer = conversion::to_ascii(input, out);
    told(answer, place)
}
