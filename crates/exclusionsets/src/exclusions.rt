// Error 16: exclusion words, and the set that they name.
ghost use Rattle.std.specs.Prelude.{◌≡◌, true, cond, [], ℕ, ◌+◌, ◌<◌, ◌≤◌, map, length, get_or, take, drop, SomeIff};
ghost use Rattle.text.specs.Blocks.{spliced};
ghost use Rattle.exclusionsets.specs.ExclusionText.{is_widened, exclusion_field};
ghost use Rattle.exclusionsets.specs.WordsWritten.{word_at};
ghost use Rattle.text.specs.Fields.{spaces};
ghost use Rattle.exclusionsets.specs.Exclusions.{exclusion_names, is_separator, words_from, bits_named, exclusions_of, set_read, exclusion_columns};
ghost use Rattle.exclusionsets.specs.Words.{can_end, letters_of, bits_of, letters_number, word_number};

use text::fields;

// One of the eight words: its letters, and what it puts into a set.
#[derive(Clone, Copy)]
struct Word {
    letters: [u8; 3],
    bits: u8,
}

// ADM RET VEN SAL TAX PAS FIN DCK. Each puts in its own bit; ADM those of RET, VEN and SAL too.
const WORDS: [Word; 8] = [
    Word {
        letters: [0xC1, 0xC4, 0xD4],
        bits: 15,
    },
    Word {
        letters: [0xD9, 0xC5, 0xE3],
        bits: 2,
    },
    Word {
        letters: [0xE5, 0xC5, 0xD5],
        bits: 4,
    },
    Word {
        letters: [0xE2, 0xC1, 0xD3],
        bits: 8,
    },
    Word {
        letters: [0xE3, 0xC1, 0xE7],
        bits: 16,
    },
    Word {
        letters: [0xD7, 0xC1, 0xE2],
        bits: 32,
    },
    Word {
        letters: [0xC6, 0xC9, 0xD5],
        bits: 64,
    },
    Word {
        letters: [0xC4, 0xC3, 0xD2],
        bits: 128,
    },
];

// The words.
fn words() -> &'static [Word; 8]
    ensures letters { map letters_of result.now ≡ exclusion_names }
    ensures bits { (n : ℕ) → n < 8 → get_or (map bits_of result.now) n 0 ≡ bits_named n }
{
    &WORDS
}

// Whether a byte parts words.
fn is_separator(b: u8) -> bool
    ensures { result ≡ is_separator b }
{
    b == 0x6B || b == 0x40
}

// Whether a word can end before the byte at `end`: a separator, or the field's end.
fn ends_word(s: &[u8], end: usize) -> bool
    ensures { result ≡ can_end s.now end }
{
    if s.len() < end {
        return false;
    }
    if s.len() == end {
        return true;
    }
    let b = s[end];
    is_separator(b)
}

// The three bytes from `at` on where a word can end behind them.
fn three_at(s: &[u8], at: usize) -> Option<[u8; 3]>
    requires { at < length s.now }
    ensures { SomeIff result (can_end s.now (at + 3) ≡ true) (take 3 (drop at s.now)) }
{
    if ends_word(s, at + 3) {
        Some([s[at], s[at + 1], s[at + 2]])
    } else {
        None
    }
}

// Three letters as a number, the first the highest.
fn number_of(letters: [u8; 3]) -> u32
    ensures { result ≡ letters_number letters }
{
    (u32::from(letters[0]) * 256 + u32::from(letters[1])) * 256 + u32::from(letters[2])
}

// The three bytes from `at` on as a number where a word can end behind them; else 0, which is no word's number.
fn word_number(s: &[u8], at: usize) -> u32
    requires { at < length s.now }
    ensures { result ≡ word_number s.now at }
{
    match three_at(s, at) {
        Some(letters) => number_of(letters),
        None => 0,
    }
}

// A field without the spaces behind its words, eight columns at a time.
fn without_eights(s: &[u8]) -> &[u8]
    ensures { words_from [] result.now ≡ words_from [] s.now }
{
    let mut part = s;
    while let Some((front, last)) = part.split_last_chunk::<8>() {
        if !fields::is_blank(last) {
            return part;
        }
        part = front;
    }
    part
}

// A field without its last four columns where they are spaces.
fn without_four(s: &[u8]) -> &[u8]
    ensures { words_from [] result.now ≡ words_from [] s.now }
{
    match s.split_last_chunk::<4>() {
        Some((front, last)) if fields::is_blank(last) => front,
        _ => s,
    }
}

// A field of forty columns without most of the spaces behind its words. The width is known here, so that a few comparisons do.
fn words_part(s: &[u8]) -> &[u8]
    ensures { words_from [] result.now ≡ words_from [] s.now }
{
    if s.len() != 40 {
        return s;
    }
    without_four(without_eights(s))
}

// Reads the exclusion words: their set, or none at the first word that is none of the eight. A name and the separator behind it
// are four columns.
fn read_words(s: &[u8]) -> Option<u8>
    ensures { set_read result ≡ exclusions_of s.now }
{
    let table = words();
    let mut set = 0;
    let mut at = 0;
    'words: loop {
        if s.len() <= at {
            break 'words Some(set);
        }
        if is_separator(s[at]) {
            at += 1;
            continue 'words;
        }
        let number = word_number(s, at);
        let mut n = 0;
        'names: loop {
            let Some(word) = table.get(n) else {
                break 'words None;
            };
            if number_of(word.letters) == number {
                set |= word.bits;
                at += 4;
                continue 'words;
            }
            n += 1;
        }
    }
}

// Reads an exclusion field: the set of its words, ADM in bit 0, or none at a word that is none of the eight.
pub fn read_exclusions(s: &[u8]) -> Option<u8>
    ensures { set_read result ≡ exclusions_of s.now }
{
    read_words(words_part(s))
}

// The three columns of a name: its letters where its bit is set, else spaces.
fn name_columns(name: [u8; 3], on: bool) -> [u8; 3]
    ensures { result ≡ cond on name (spaces 3) }
{
    if on {
        return name;
    }
    [0x40; 3]
}

// The eight names of a set in three columns each: letters where the bit is set, else spaces. The three bytes are taken one by one: an array
// that is only copied as a block would be put into memory first.
pub fn exclusion_columns(set: u8) -> [u8; 24]
    ensures { result ≡ exclusion_columns set }
{
    let mut out = [0x40u8; 24];
    if set == 0 {
        return out;
    }
    let mut left = set;
    for (n, word) in words().iter().enumerate() {
        let name = name_columns(word.letters, left % 2 == 1);
        fields::copy_in(&mut out, n * 3, &[name[0], name[1], name[2]]);
        left /= 2;
    }
    out
}

// Whether an exclusion field can name the set: it is without ADM, or with RET, VEN and SAL too.
pub fn is_widened(set: u8) -> bool
    ensures { result ≡ is_widened set }
{
    (set % 2 != 1) | (set / 2 % 8 == 7)
}

// Writes a name behind `at` bytes, with a comma before it unless it is the first, where it is in the set; returns how many bytes there are.
fn put_word(out: &mut [u8], at: usize, on: bool, name: [u8; 3]) -> usize
    requires { at + 4 ≤ length out.old }
    ensures { (out.new ≡ spliced out.old at (word_at at on name)) × (result ≡ at + length (word_at at on name)) }
{
    if !on {
        return at;
    }
    if at == 0 {
        fields::copy_in(out, 0, &name);
        return 3;
    }
    let word = [0x6B, name[0], name[1], name[2]];
    fields::copy_in(out, at, &word);
    at + 4
}

// The forty columns of a set.
pub fn exclusion_field(set: u8) -> [u8; 40]
    ensures { result ≡ exclusion_field set }
{
    let mut out = [0x40u8; 40];
    let mut left = set;
    let mut at = 0;
    for word in words() {
        at = put_word(&mut out, at, left % 2 == 1, word.letters);
        left /= 2;
    }
    out
}
