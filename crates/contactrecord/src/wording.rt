// What a field contains, and its runs of letters.
ghost use Rattle.std.specs.Prelude.{◌≡◌, ◌<◌, length};
ghost use Rattle.text.specs.Fields.{same_bytes};
ghost use Rattle.contactrecord.specs.Wording.{contains, has_run};

use text::{characters, fields};

// Whether a part is the text: most parts differ from it in their first byte, and are read no further.
fn is_text(part: &[u8], text: &[u8]) -> bool
    ensures { result ≡ same_bytes part.now text.now }
{
    match (part.first(), text.first()) {
        (Some(a), Some(b)) if *a != *b => false,
        _ => fields::same(part, text),
    }
}

// Whether s contains the text.
pub fn holds_text(s: &[u8], text: &[u8]) -> bool
    ensures { result ≡ contains text.now s.now }
{
    if text.is_empty() {
        return !s.is_empty();
    }
    s.windows(text.len()).any(|part| is_text(part, text))
}

// Whether a word of three bytes stands at some place of s. It never ends early: several places are looked at at a time.
pub fn holds_three(s: &[u8], word: &[u8]) -> bool
    requires { length word.now ≡ 3 }
    ensures { result ≡ contains word.now s.now }
{
    let (x, y, z) = (word[0], word[1], word[2]);
    s.windows(3).fold(
        false,
        |seen, w| seen | ((w[0] == x) & ((w[1] == y) & (w[2] == z))),
    )
}

// Whether the word is a run of letters, read to its end. Where the run has another length or another first byte nothing is compared.
fn ends_run(word: &[u8], run: &[u8]) -> bool
    ensures { result ≡ same_bytes word.now run.now }
{
    run.len() == word.len() && is_text(word, run)
}

// The same as `has_run`, run by run.
fn compares_runs(s: &[u8], word: &[u8]) -> bool
    requires { 0 < length word.now }
    ensures { result ≡ has_run word.now s.now }
{
    s.split(|b| !characters::is_letter(*b))
        .any(|run| ends_run(word, run))
}

// Whether the word, which isn't empty, is a whole run of letters of s. Where s doesn't hold it, it is none of the runs: most fields don't
// hold a word of three letters, and that is found sooner than the runs.
pub fn has_run(s: &[u8], word: &[u8]) -> bool
    requires { 0 < length word.now }
    ensures { result ≡ has_run word.now s.now }
{
    if word.len() == 3 && !holds_three(s, word) {
        return false;
    }
    compares_runs(s, word)
}
