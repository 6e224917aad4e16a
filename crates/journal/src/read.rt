//! A line of a journal read into what it asks for.

ghost use Rattle.std.specs.Prelude.{◌≡◌};
ghost use Rattle.refusal.specs.Checks.{viewed};
ghost use Rattle.journal.specs.Reading.{request, request_of, text_after, only_word, places_of};

use crate::words::{number, split_word};
use outcomes::Reason;
use std::str::from_utf8;

// How many places an opening asks for: for records, signal quarters and watch quarters.
#[derive(Clone, Copy)]
pub struct Places {
    pub records: usize,
    pub signals: usize,
    pub watches: usize,
}

// A number is `None` where the word is no number or too large for any.
#[derive(Clone, Copy)]
pub enum Line<'a> {
    // Blank, or a comment.
    Passed,
    Member(&'a [u8]),
    Site(Option<usize>, &'a [u8]),
    Open(Places),
    Record(&'a [u8]),
    Records(&'a [u8]),
    Balance(Option<usize>),
    Account(Option<usize>),
}

// What stands after one separator, if anything does.
fn text_after(rest: &[u8]) -> Result<&[u8], Reason>
    ensures { viewed (λ x. x.now) result ≡ text_after rest.now }
{
    match rest {
        [_, text @ ..] if !text.is_empty() => Ok(text),
        _ => Err(Reason::MissingWords),
    }
}

// The one word that stands there.
fn only_word(rest: &[u8]) -> Result<&[u8], Reason>
    ensures { viewed (λ x. x.now) result ≡ only_word rest.now }
{
    let (word, rest) = split_word(rest);
    if word.is_empty() {
        return Err(Reason::MissingWords);
    }
    let (more, _) = split_word(rest);
    if more.is_empty() {
        Ok(word)
    } else {
        Err(Reason::TooManyWords)
    }
}

fn read_open(rest: &[u8]) -> Result<Places, Reason>
    ensures { result ≡ places_of rest.now }
{
    let (records, rest) = split_word(rest);
    let (signals, rest) = split_word(rest);
    let watches = only_word(rest)?;
    Ok(Places {
        records: number(records).ok_or(Reason::NotANumber)?,
        signals: number(signals).ok_or(Reason::NotANumber)?,
        watches: number(watches).ok_or(Reason::NotANumber)?,
    })
}

// What a line asks for, or why it is not taken.
pub fn read_line(line: &[u8]) -> Result<Line<'_>, Reason>
    ensures { viewed request_of result ≡ request line.now }
{
    if line.starts_with(b"#") {
        return Ok(Line::Passed);
    }
    let (word, rest) = split_word(line);
    if word.is_empty() {
        return Ok(Line::Passed);
    }
    let Ok(word) = from_utf8(word) else {
        return Err(Reason::UnknownWord);
    };
    match word {
        "member" => Ok(Line::Member(text_after(rest)?)),
        "site" => {
            let (member, rest) = split_word(rest);
            Ok(Line::Site(number(member), text_after(rest)?))
        }
        "open" => Ok(Line::Open(read_open(rest)?)),
        "record" => Ok(Line::Record(text_after(rest)?)),
        "records" => Ok(Line::Records(only_word(rest)?)),
        "balance" => Ok(Line::Balance(number(only_word(rest)?))),
        "account" => Ok(Line::Account(number(only_word(rest)?))),
        _ => Err(Reason::UnknownWord),
    }
}
