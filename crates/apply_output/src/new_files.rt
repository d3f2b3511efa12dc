// The files that a run writes: master.bin and rejects.bin.
ghost use Rattle.std.specs.Prelude.{◌≡◌, ◌≤◌, length, take};
ghost use Rattle.apply_output.specs.NewFiles.{record_count, reject_file, files_of, files_in};
ghost use Rattle.apply_output.specs.Stop.{run_as};
ghost use Rattle.layout.specs.Batch.{detail_count};

use crate::parts::{blocks_length, detail_count, first};
use crate::stop::Stop;
use batch::apply::Applied;

// How many bytes are written of the two buffers that the call leaves, at the front of each.
#[derive(Clone, Copy)]
pub struct NewFiles {
    pub master: usize,
    pub rejects: usize,
}

// How many records the reject file of some verdicts has.
fn record_count(verdicts: &[u64]) -> usize
    requires { length verdicts.now ≤ 100 }
    ensures { result ≡ record_count verdicts.now }
{
    1 + verdicts.iter().filter(|v| **v != 0).count()
}

// How many bytes of the reject buffer the reject file has.
fn reject_length(batch: &[u8], verdicts: &[u64; 100], rejects: &[u8]) -> usize
    ensures { take result rejects.now ≡ reject_file (detail_count batch.now) verdicts.now rejects.now }
{
    let numbers = first(verdicts, detail_count(batch));
    blocks_length(rejects, record_count(numbers), 245)
}

// The files of an answer to a batch, and of the buffers as the call left them; a refusal writes none.
pub fn files_to_write(
    answer: Result<Applied, Stop>,
    batch: &[u8],
    master: &[u8; 40001],
    verdicts: &[u64; 100],
    rejects: &[u8; 24745],
) -> Option<NewFiles>
    ensures { files_in result master.now rejects.now
        ≡ files_of (detail_count batch.now) (run_as answer master.now verdicts.now rejects.now) }
{
    match answer {
        Ok(done) => Some(NewFiles {
            master: blocks_length(master, done.rows, 200),
            rejects: reject_length(batch, verdicts, rejects),
        }),
        Err(_) => None,
    }
}
