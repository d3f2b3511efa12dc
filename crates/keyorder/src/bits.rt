// Where the parts of a 64-bit number of the verdict list stand. The list is also the place that the details are ordered and worked in, so a
// number holds one thing after the other. Slot p of the first d, by stages:
//
//                             bits 63 to 32    bits 31 to 8   7 to 4   3       2            1       0
//   judged (tagged)           rank of p's key  p              kind     gives   warning 51   error   0
//   sorted (tagged)           the same of the detail at position p of the key order
//   marked (namemarks)        the same                                                              given
//
//                             bits 63 to 40    bits 39 to 19  bits 18 to 0
//   worked (keywork)          index            high part      low part     of the detail at position p
//   put back (keywork)        p                high part      low part     of detail p
//   written (rejectfile)      the number of detail p's set of codes, alone
//
// gives: the detail gives its name; error: it has one but 09 and 17; given: its name is given by a B record of its key. The two parts of a
// worked number are the verdict: a set of codes is errors alone, which stand in the low part, or warnings alone, which stand in the high
// part; with error 17 the high part is the four stored characters.
//
// While the names of one key are marked (namemarks) its numbers are codes:
//
//                             bits 63 to 32    bit 31              bits 30 to 0
//   coded                     the name         0 where it is given bits 31 to 1 of the number

// 2 to the power 32: the lowest bit of the rank.
pub const RANK_PLACE: u64 = 0x100000000;

// 2 to the power 8: the lowest bit of the index beside a rank.
pub const INDEX_PLACE: u64 = 0x100;

// 2 to the power 24: how many indexes there are.
pub const INDEXES: u64 = 0x1000000;

// 2 to the power 40: the lowest bit of the index beside a verdict.
pub const WORKED_PLACE: u64 = 0x10000000000;

// 2 to the power 19: the lowest bit of a verdict's high part.
pub const HIGH_PLACE: u64 = 0x80000;

// 2 to the power 43: the lowest bit that stands in the high part of a set of warnings.
pub const WARNINGS: u64 = 0x80000000000;

// 2 to the power 17: the bit of error 17 in the low part.
pub const NAMED: u64 = 0x20000;
