// The C functions of the contact file: each returns 0 or the refusal's number, and writes its result numbers where it is carried out.
// Every argument may be anything that its type can hold.
ghost use Rattle.std.specs.Prelude.{◌≡◌};
ghost use Rattle.fantanolive.specs.ContactsCalls.{update_left, codes_left};

use contacttable::codes;
use contactupdate::update;

// Reads a contact file into a table; the result numbers are the new table count and the list's.
#[unsafe(no_mangle)]
pub extern "C" fn fantanolive_contacts_update(
    table: &mut [u8],
    count: usize,
    file: &[u8],
    faulty: &mut [u32],
    res: &mut [u64; 2],
) -> u64
    ensures { record { number = result; numbers = res.new; buffers = record { table = table.new; faulty = faulty.new } }
        ≡ update_left table.old count file.now faulty.old res.old }
{
    match update::update(table, count, file, faulty) {
        Ok(done) => {
            *res = [done.records as u64, done.listed as u64];
            0
        }
        Err(refusal) => refusal.number(),
    }
}

// Writes the codes of a state but 000.
#[unsafe(no_mangle)]
pub extern "C" fn fantanolive_contacts_codes(
    table: &[u8],
    count: usize,
    state: &[u8],
    out: &mut [u8],
    written: &mut u64,
) -> u64
    ensures { record { number = result; numbers = written.new; buffers = out.new }
        ≡ codes_left table.now count state.now out.old written.old }
{
    match codes::codes_of(table, count, state, out) {
        Ok(n) => {
            *written = n as u64;
            0
        }
        Err(refusal) => refusal.number(),
    }
}
