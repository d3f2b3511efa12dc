// Printing a master: the lines of its live rows in key order, 58 to a page, each page between a heading and a foot.
ghost use Rattle.std.specs.Prelude.{◌≡◌, cond, [], ◌∷◌, ◌++◌, ◌+◌, ◌*◌, ◌^◌, ◌≤◌, ◌<◌, length};
ghost use Rattle.text.specs.Blocks.{blocks, Holds};
ghost use Rattle.layout.specs.Limits.{max_rows};
ghost use Rattle.casemaster.specs.Master.{rows_of};
ghost use Rattle.pages.specs.Forms.{foot};
ghost use Rattle.pages.specs.Pages.{case_lines, pages_as, pages_outcome};
ghost use Rattle.pages.specs.Steps.{heading_before, going_on, row_lines, RowPrinted};

use crate::forms;
use crate::forms::PAGE_WIDTH;
use answers::refusal::Refusal;
use casemaster::master::ROW_WIDTH;
use casemaster::{refusals, row};
use text::{counting, fields};

// How many lines for rows a full page has.
const PAGE_LINES: usize = 58;

// Where the printing stands: lines of every kind written, the number of the present page, and how many rows it has.
#[derive(Clone, Copy)]
struct Standing {
    written: usize,
    page: u64,
    rows: usize,
}

// How many of the first n rows are live.
fn count_live(m: &[u8], n: usize) -> usize
    requires { n * 200 ≤ length m.now }
    ensures { (result ≡ length (case_lines (rows_of n m.now))) × (result ≤ n) }
{
    let mut live: usize = 0;
    for row in m[..n * ROW_WIDTH].chunks_exact(ROW_WIDTH) {
        live += counting::one_if(row::is_live(row));
    }
    live
}

// Writes a line behind k others.
fn put_line(out: &mut [u8], k: usize, line: [u8; 132]) -> usize
    requires { (k + 1) * 132 ≤ length out.old }
    ensures { Holds 132 out.old out.new result (blocks 132 k out.old ++ line ∷ []) }
{
    fields::copy_in(out, k * PAGE_WIDTH, &line);
    k + 1
}

// Writes the heading of a page that has no rows yet.
fn open_page(out: &mut [u8], k: usize, page: u64, rows: usize) -> usize
    requires { (k + length (heading_before page rows)) * 132 ≤ length out.old }
    ensures { Holds 132 out.old out.new result (blocks 132 k out.old ++ heading_before page rows) }
{
    if rows != 0 {
        return k;
    }
    let line = forms::heading_of(page);
    put_line(out, k, line)
}

// Writes the foot of a page that ends.
fn close_page(out: &mut [u8], k: usize, rows: usize, ends: bool) -> usize
    requires { (k + length (cond ends (foot rows ∷ []) [])) * 132 ≤ length out.old }
    ensures { Holds 132 out.old out.new result (blocks 132 k out.old ++ cond ends (foot rows ∷ []) []) }
{
    if !ends {
        return k;
    }
    let line = forms::foot_of(rows);
    put_line(out, k, line)
}

// Writes the line of a live row, with the heading before it and the foot behind it at a page's borders.
fn print_row(out: &mut [u8], k: usize, page: u64, rows: usize, row: &[u8]) -> Standing
    requires { (length row.now ≡ 200) × (rows < 58) × (page < 2 ^ 63)
        × ((k + length (row_lines page rows row.now)) * 132 ≤ length out.old) }
    ensures { RowPrinted out.old k page rows row.now out.new result.written result.page result.rows }
{
    if !row::is_live(row) {
        return Standing {
            written: k,
            page,
            rows,
        };
    }
    let opened = open_page(out, k, page, rows);
    let line = forms::line_of(row);
    let lined = put_line(out, opened, line);
    let now_rows = rows + 1;
    let written = close_page(out, lined, now_rows, now_rows == PAGE_LINES);
    if now_rows == PAGE_LINES {
        return Standing {
            written,
            page: page + 1,
            rows: 0,
        };
    }
    Standing {
        written,
        page,
        rows: now_rows,
    }
}

// Prints the live rows among the first n, and returns how many lines of every kind that takes.
fn print_rows(out: &mut [u8], m: &[u8], n: usize) -> usize
    requires { (n * 200 ≤ length m.now) × (length (going_on 1 0 (case_lines (rows_of n m.now))) * 132 ≤ length out.old) }
    ensures { Holds 132 out.old out.new result (going_on 1 0 (case_lines (rows_of n m.now))) }
{
    let mut written: usize = 0;
    let mut page: u64 = 1;
    let mut rows: usize = 0;
    for row in m[..n * ROW_WIDTH].chunks_exact(ROW_WIDTH) {
        let standing = print_row(out, written, page, rows, row);
        written = standing.written;
        page = standing.page;
        rows = standing.rows;
    }
    close_page(out, written, rows, rows != 0)
}

// Prints a master: every live row in key order, 58 lines to a page, and answers how many pages there are, or refuses.
pub fn pages(master: &[u8], rows: usize, out: &mut [u8]) -> Result<usize, Refusal>
    ensures { pages_as result out.new ≡ pages_outcome max_rows master.now rows out.old }
{
    refusals::master_refusal(master, rows)?;
    let live = count_live(master, rows);
    let count = (live + 57) / PAGE_LINES;
    if out.len() / PAGE_WIDTH < live + 2 * count {
        return Err(Refusal::ShortPages);
    }
    print_rows(out, master, rows);
    Ok(count)
}
