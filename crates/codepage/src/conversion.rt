// The two calls: a file turned from ASCII into EBCDIC, and back.
ghost use Rattle.std.specs.Prelude.{◌≡◌, ◌==◌, true, ◌++◌, ◌≤◌, length, drop, get_or, position};
ghost use Rattle.std.proofs.Math.Option.{none};
ghost use Rattle.codepage.specs.CodePage.{ebcdic_of, ascii_of};
ghost use Rattle.codepage.specs.Tables.{code_in, entries_of};
ghost use Rattle.codepage.specs.Conversion.{place_without, place_found, converted_as, conversion_outcome};

use crate::{accepted, tables};

// Why a file is not converted: the place of the first byte without a counterpart (refusal 16); an output shorter than the input
// (refusal 17).
#[derive(Clone, Copy)]
pub enum ConversionError {
    NoCounterpart(usize),
    TooShort,
}

// The place of the first byte that a table has no code for.
fn place_without(table: &[u8; 256], input: &[u8]) -> Option<usize>
    ensures { result ≡ position (λ b. get_or table.now b 0 == 0) input.now }
{
    input.iter().position(|b| table[*b as usize] == 0)
}

// The same, where it may be known already that the file has a counterpart for every byte.
fn place_unless_passed(table: &[u8; 256], input: &[u8], passed: bool) -> Option<usize>
    requires { passed ≡ true → place_without (code_in table.now) input.now ≡ none }
    ensures { place_found result ≡ place_without (code_in table.now) input.now }
{
    if passed {
        return None;
    }
    place_without(table, input)
}

// Writes the table's entries of the bytes at the front of the output.
fn write_entries(table: &[u8; 256], input: &[u8], out: &mut [u8])
    requires { length input.now ≤ length out.old }
    ensures { out.new ≡ entries_of table.now input.now ++ drop (length input.now) out.old }
{
    for (i, b) in input.iter().enumerate() {
        out[i] = table[*b as usize];
    }
}

// Converts by a table, where it may be known already that the file has a counterpart for every byte.
fn convert(
    table: &[u8; 256],
    input: &[u8],
    passed: bool,
    out: &mut [u8],
) -> Result<(), ConversionError>
    requires { passed ≡ true → place_without (code_in table.now) input.now ≡ none }
    ensures { converted_as result out.new ≡ conversion_outcome (code_in table.now) input.now out.old }
{
    // Where every byte has a counterpart the place is the input's length.
    let place = place_unless_passed(table, input, passed).unwrap_or(input.len());
    if place < input.len() {
        return Err(ConversionError::NoCounterpart(place));
    }
    if out.len() < input.len() {
        return Err(ConversionError::TooShort);
    }
    write_entries(table, input, out);
    Ok(())
}

// ASCII into EBCDIC.
pub fn to_ebcdic(input: &[u8], out: &mut [u8]) -> Result<(), ConversionError>
    ensures { converted_as result out.new ≡ conversion_outcome ebcdic_of input.now out.old }
{
    let passed = accepted::all_have_ebcdic(input);
    let table = tables::ebcdic_table();
    convert(&table, input, passed, out)
}

// EBCDIC into ASCII.
pub fn to_ascii(input: &[u8], out: &mut [u8]) -> Result<(), ConversionError>
    ensures { converted_as result out.new ≡ conversion_outcome ascii_of input.now out.old }
{
    let passed = accepted::all_have_ascii(input);
    let table = tables::ascii_table();
    convert(&table, input, passed, out)
}
