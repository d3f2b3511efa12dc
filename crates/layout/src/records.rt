// The records of a batch.
ghost use Rattle.std.specs.Prelude.{◌≡◌, ◌+◌, ◌*◌, ◌≤◌, length, take, drop};
ghost use Rattle.layout.specs.Record.{record_key};

use crate::record;
use text::blocks;

pub const RECORD_WIDTH: usize = 245;

// The record at place i, copied out.
pub fn record_at(batch: &[u8], i: usize) -> [u8; 245]
    requires { i * 245 + 245 ≤ length batch.now }
    ensures { result ≡ take 245 (drop (i * 245) batch.now) }
{
    blocks::block_at(batch, i)
}

// The key of the record at place i, without a copy of the record.
pub fn key_at(batch: &[u8], i: usize) -> [u8; 12]
    requires { i * 245 + 245 ≤ length batch.now }
    ensures { result ≡ record_key (take 245 (drop (i * 245) batch.now)) }
{
    let at = i * RECORD_WIDTH;
    let end = at + RECORD_WIDTH;
    record::record_key(&batch[at..end])
}
