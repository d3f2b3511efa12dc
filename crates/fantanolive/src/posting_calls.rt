// The C functions that give a master its cents and post a collection file to it: each returns 0 or the refusal's number. Every argument
// may be anything that its type can hold.
ghost use Rattle.std.specs.Prelude.{◌≡◌};
ghost use Rattle.addcents.specs.Convert.{convert_call};
ghost use Rattle.posting.specs.Post.{post_call};
ghost use Rattle.fantanolive.specs.AddCentsCalls.{convert_left};
ghost use Rattle.fantanolive.specs.PostingCalls.{post_left};

use addcents::convert;
use posting::post;

// Writes 00 into the cents of every row of a master that has none yet.
#[unsafe(no_mangle)]
pub extern "C" fn fantanolive_add_cents(master: &mut [u8], rows: usize) -> u64
    ensures { record { number = result; numbers = tt; buffers = master.new } ≡ convert_left (convert_call master.old rows) }
{
    match convert::add_cents(master, rows) {
        Ok(()) => 0,
        Err(add_refusal) => add_refusal.number(),
    }
}

// Posts a collection file; `listed` is how many lines are listed.
#[unsafe(no_mangle)]
pub extern "C" fn fantanolive_post(
    master: &mut [u8],
    rows: usize,
    file: &[u8],
    lines: &mut [u32],
    listed: &mut u64,
) -> u64
    ensures { record {
      number = result;
      numbers = listed.new;
      buffers = record { master = master.new; lines = lines.new };
    }
        ≡ post_left (post_call master.old rows file.now lines.old) listed.old }
{
    match post::post(master, rows, file, lines) {
        Ok(count) => {
            *listed = count;
            0
        }
        Err(post_refusal) => post_refusal.number(),
    }
}
