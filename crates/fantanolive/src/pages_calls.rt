// The C function that prints a master: it returns 0 or the refusal's number. Every argument may be anything that its type can hold.
ghost use Rattle.std.specs.Prelude.{◌≡◌};
ghost use Rattle.fantanolive.specs.PagesCalls.{pages_left};

use pages::printing;

// Prints the live rows of a master; `pages` is how many pages there are.
#[unsafe(no_mangle)]
pub extern "C" fn fantanolive_pages(
    master: &[u8],
    rows: usize,
    out: &mut [u8],
    pages: &mut u64,
) -> u64
    ensures { record { number = result; numbers = pages.new; buffers = out.new }
        ≡ pages_left master.now rows out.old pages.old }
{
    match printing::pages(master, rows, out) {
        Ok(count) => {
            *pages = count as u64;
            0
        }
        Err(refusal) => refusal.number(),
    }
}
