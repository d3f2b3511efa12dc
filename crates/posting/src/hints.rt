// Where the rows of sixteen lines are likely to be: their keys are looked for side by side, so that the waits for memory overlap.
// Then the parts of these rows that posting reads are read together. A hint may be any place: whoever takes one compares the key of the
// row there. So what is read can change no outcome; were all of it FF, which no row's status is, the hints would be the first place.
ghost use Rattle.std.specs.Prelude.{◌+◌, ◌-◌, ◌*◌, ◌/◌, ◌≤◌, ◌<◌, length};
ghost use Rattle.posting.specs.Hints.{HintsWithin};

use casemaster::master::ROW_WIDTH;
use collectionfile::line::LINE_WIDTH;
use text::{byte_order, words};

// The first eight bytes of the key of line i as a number: the state and six digits of the SSN.
fn front_of(file: &[u8], i: usize, count: usize) -> u64
    requires { count * 240 ≤ length file.now }
{
    if count <= i {
        return 0;
    }
    let at = i * LINE_WIDTH;
    let state = words::four_number(file, at) / 65536;
    let digits = words::eight_number(file, at + 3) % 281474976710656;
    state * 281474976710656 + digits
}

// The last four bytes of the key of line i as a number: three digits of the SSN and the case type.
fn back_of(file: &[u8], i: usize, count: usize) -> u64
    requires { count * 240 ≤ length file.now }
{
    if count <= i {
        return 0;
    }
    let at = i * LINE_WIDTH;
    let digits = words::four_number(file, at + 10) % 16777216;
    let kind = words::four_number(file, at + 103) % 256;
    digits * 256 + kind
}

// The keys of sixteen lines, each as these two numbers.
#[derive(Clone, Copy)]
struct Keys {
    fronts: [u64; 16],
    backs: [u64; 16],
}

// The keys of the sixteen lines from line `from` on.
fn keys_of(file: &[u8], from: usize, count: usize) -> Keys
    requires { (count * 240 ≤ length file.now) × (from ≤ count) }
{
    let mut fronts = [0u64; 16];
    let mut backs = [0u64; 16];
    for k in 0..16 {
        fronts[k] = front_of(file, from + k, count);
        backs[k] = back_of(file, from + k, count);
    }
    Keys { fronts, backs }
}

// A place, or the one half further where the row there isn't above the key.
fn next_place(m: &[u8], n: usize, p: usize, half: usize, front: u64, back: u64) -> usize
    requires { (n * 200 ≤ length m.now) × (p + half < n) }
    ensures { result ≤ p + half }
{
    let at = (p + half) * ROW_WIDTH;
    let row_front = words::eight_number(m, at);
    let row_back = words::four_number(m, at + 8);
    if byte_order::is_twelve_below_in(front, back, row_front, row_back) {
        p
    } else {
        p + half
    }
}

// A step of sixteen searches: of the rows left behind each place the first half or the second.
fn halve(m: &[u8], n: usize, left: usize, keys: &Keys, places: &mut [usize; 16])
    requires { (n * 200 ≤ length m.now) × (1 < left) × HintsWithin n left places.old }
    ensures { HintsWithin n (left - left / 2) places.new }
{
    let half = left / 2;
    for k in 0..16 {
        places[k] = next_place(m, n, places[k], half, keys.fronts[k], keys.backs[k]);
    }
}

// For sixteen keys the place of the last of n rows that isn't above each, or the first place.
fn look_for(m: &[u8], n: usize, keys: &Keys, places: &mut [usize; 16])
    requires { n * 200 ≤ length m.now }
{
    *places = [0usize; 16];
    let mut left = n;
    while 1 < left {
        halve(m, n, left, keys, places);
        left = left - left / 2;
    }
}

// A byte of the balance and one of the status of the row at place p, joined.
fn touched(m: &[u8], n: usize, p: usize) -> u8
    requires { n * 200 ≤ length m.now }
{
    if n <= p {
        return 0;
    }
    let at = p * ROW_WIDTH;
    m[at + 65] & m[at + 195]
}

// The same of the rows at sixteen places, so that these waits overlap too.
fn touched_together(m: &[u8], n: usize, places: &[usize; 16]) -> u8
    requires { n * 200 ≤ length m.now }
{
    let mut joined = 0xFFu8;
    for p in places {
        joined &= touched(m, n, *p);
    }
    joined
}

// The hints for the lines from line i on, where sixteen start there; else those there are stay.
pub fn renew(hints: &mut [usize; 16], m: &[u8], n: usize, file: &[u8], i: usize, count: usize)
    requires { (n * 200 ≤ length m.now) × (count * 240 ≤ length file.now) × (i ≤ count) }
{
    if i % 16 != 0 {
        return;
    }
    let keys = keys_of(file, i, count);
    look_for(m, n, &keys, hints);
    if touched_together(m, n, hints) == 0xFF {
        *hints = [0usize; 16];
    }
}

// The hint for line i.
pub fn hint_for(hints: &[usize; 16], i: usize) -> usize {
    hints[i % 16]
}
