// Where the own keys end in the key order, and where each key's details end. The ranks are enough: no record is read.
ghost use Rattle.std.specs.Prelude.{◌≤◌, ◌<◌, length};
ghost use Rattle.keyorder.specs.Runs.{IsOwnEnd, RunFound, RanksRise};

use crate::{rank, tagged};

// How many of the first d numbers have a rank of the state's own; these come first.
pub fn own_end(numbers: &[u64], d: usize) -> usize
    requires { (d ≤ length numbers.now) × RanksRise d numbers.now }
    ensures { IsOwnEnd d numbers.now result }
{
    numbers[..d].partition_point(|x| tagged::rank_part(*x) < rank::NO_RANK)
}

// Where the details of one key end, whether one of them gives its name, and whether one makes a row where there is none.
#[derive(Clone, Copy)]
pub struct Run {
    pub end: usize,
    pub gives: bool,
    pub makes: bool,
}

// The run of one rank from position p on. No record is read.
pub fn run_at(numbers: &[u64], p: usize, own: usize) -> Run
    requires { (p < own) × (own ≤ length numbers.now) }
    ensures { RunFound numbers.now p own result }
{
    let rank = tagged::rank_part(numbers[p]);
    let mut gives = tagged::flag_gives(numbers[p]);
    let mut makes = tagged::makes_from(numbers[p]);
    for e in p + 1..own {
        let x = numbers[e];
        if tagged::rank_part(x) != rank {
            return Run {
                end: e,
                gives,
                makes,
            };
        }
        gives = gives | tagged::flag_gives(x);
        makes = makes | tagged::makes_from(x);
    }
    Run {
        end: own,
        gives,
        makes,
    }
}
