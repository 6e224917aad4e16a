//! Words of a line, and numbers.

ghost use Rattle.std.specs.Prelude.{◌≡◌};
ghost use Rattle.journal.specs.Words.{is_separator, word_of, after_word, number_of};

use crate::cuts::split_before;
use std::str::from_utf8;

fn is_separator(b: u8) -> bool
    ensures { result ≡ is_separator b }
{
    b == b' ' || b == b'\t'
}

// The first word, and what follows it; separators before the word are passed over.
pub fn split_word(text: &[u8]) -> (&[u8], &[u8])
    ensures word { result.0.now ≡ word_of text.now }
    ensures rest { result.1.now ≡ after_word text.now }
{
    let (_, text) = split_before(text, |b| !is_separator(*b));
    split_before(text, |b| is_separator(*b))
}

// A number in digits, if there are any, no other byte stands among them, and it is below 2^64. A record's six digits fail with a
// refusal, and need no text.
pub fn number(word: &[u8]) -> Option<usize>
    ensures { result ≡ number_of word.now }
{
    if word.starts_with(b"+") {
        return None;
    }
    let Ok(word) = from_utf8(word) else {
        return None;
    };
    word.parse().ok()
}
