// The list of local codes: three bytes each.
ghost use Rattle.std.specs.Prelude.{◌≡◌};
ghost use Rattle.layout.specs.Locals.{is_listed, is_local_list};
ghost use Rattle.layout.specs.OrderedList.{IsOrderedIf};

use text::{byte_order, fields};

// Whether a list is made of three-digit codes, strictly rising.
pub fn is_local_list(list: &[u8]) -> bool
    ensures { result ≡ is_local_list list.now }
{
    list.len() % 3 == 0
        && fields::all_digits(list)
        && byte_order::is_rising(list, list.len() / 3, 3, 3)
}

// A list of local codes, in any order, for those who look up many codes in it. `ordered` says that it is known to be three-digit codes,
// strictly rising.
#[derive(Clone, Copy)]
pub struct LocalCodes<'a> {
    pub list: &'a [u8],
    ordered: bool,
    ghost rises: { IsOrderedIf ordered list.now },
}

impl<'a> LocalCodes<'a> {
    // A list; it is read once, to know whether it rises.
    pub fn new(list: &'a [u8]) -> LocalCodes<'a>
        ensures { result.list.now ≡ list.now }
    {
        LocalCodes {
            list,
            ordered: is_local_list(list),
        }
    }

    // A list that is not read now, for those who look up one code in it.
    pub fn unread(list: &'a [u8]) -> LocalCodes<'a>
        ensures { result.list.now ≡ list.now }
    {
        LocalCodes {
            list,
            ordered: false,
        }
    }

    // Whether a code is one of the list, which is halved where it is known to rise, and else read from its start.
    pub fn contains(self, code: &[u8]) -> bool
        ensures { result ≡ is_listed code.now self.entry.list.now }
    {
        let (codes, _) = self.list.as_chunks::<3>();
        match code.as_array::<3>() {
            Some(code) if self.ordered => codes.binary_search(code).is_ok(),
            Some(code) => codes.contains(code),
            None => false,
        }
    }
}
