// A master: rows one behind the other, and a tail that is kept.
ghost use Rattle.std.specs.Prelude.{◌≡◌, ◌+◌, ◌*◌, ◌≤◌, length, take, drop};
ghost use Rattle.casemaster.specs.Forms.{are_sound_in};
ghost use Rattle.casemaster.specs.Master.{rows_of};
ghost use Rattle.casemaster.specs.Search.{Pulled, RowPut, Raised};

use crate::row;
use crate::row::Form;
use layout::{key, states};
use text::{byte_order, fields, words};

pub const ROW_WIDTH: usize = 200;

// The row at place p, copied out.
pub fn row_at(m: &[u8], p: usize) -> [u8; 200]
    requires { p * 200 + 200 ≤ length m.now }
    ensures { result ≡ take 200 (drop (p * 200) m.now) }
{
    let (rows, _) = m.as_chunks::<ROW_WIDTH>();
    rows[p]
}

// Writes a row at place p; the rows before it and what stands behind it are kept.
pub fn put_row(m: &mut [u8], p: usize, row: [u8; 200])
    requires { p * 200 + 200 ≤ length m.old }
    ensures { RowPut m.old p row m.new }
{
    fields::copy_in(m, p * ROW_WIDTH, &row);
}

// Copies `count` rows from place `from` on down to place `to` on.
pub fn pull_rows(m: &mut [u8], from: usize, to: usize, count: usize)
    requires { (to ≤ from) × ((from + count) * 200 ≤ length m.old) }
    ensures { Pulled m.old from to count m.new }
{
    if from == to {
        return;
    }
    m.copy_within(from * ROW_WIDTH..(from + count) * ROW_WIDTH, to * ROW_WIDTH);
}

// Moves the first n rows `by` places up, the last first.
pub fn shift_rows(m: &mut [u8], n: usize, by: usize)
    requires { (n + by) * 200 ≤ length m.old }
    ensures { Raised m.old n by m.new }
{
    if by == 0 {
        return;
    }
    for i in (0..n).rev() {
        let from = i * ROW_WIDTH;
        m.copy_within(from..from + ROW_WIDTH, (i + by) * ROW_WIDTH);
    }
}

// Whether the first n rows are sound and in strictly rising order of key, in one pass. The two numbers of a row's key are read when it is
// compared with the one before, and again serve for its own soundness. The pass ends inside the loop, so that the row's own test has one
// call.
pub fn are_sound_rows(m: &[u8], n: usize, form: Form) -> bool
    requires { n * 200 ≤ length m.now }
    ensures { result ≡ are_sound_in form (rows_of n m.now) }
{
    if n < 1 {
        return true;
    }
    let (rows, _) = m.as_chunks::<ROW_WIDTH>();
    let mut known = states::FIRST_CODE;
    let mut front = words::eight_number(&rows[0], 0);
    let mut back = words::four_number(&rows[0], 8);
    for (i, row) in rows[..n].iter().enumerate() {
        if !row::is_sound_row_in(row, known, front, back, form) {
            return false;
        }
        if i + 1 == n {
            return true;
        }
        let next = &rows[i + 1];
        let next_front = words::eight_number(next, 0);
        let next_back = words::four_number(next, 8);
        if !byte_order::is_twelve_below_in(front, back, next_front, next_back) {
            return false;
        }
        known = key::state_in(front);
        front = next_front;
        back = next_back;
    }
    true
}
