//! Names, and the text of a record's name field as pieces that borrow its bytes.

#![tactic(auto)]

ghost use Rattle.std.specs.Prelude.{◌≡◌, ℕ, List, ◌++◌, MatchOption, Some, ◌≢◌};
ghost use Rattle.std.specs.Option.{option_map};
ghost use Rattle.std.specs.Result.{result_ok};
ghost use Rattle.std.specs.List.{list_all, position_or_len};
ghost use Rattle.names.specs.Names.{malformed_text, printable, well_formed, size, entity, bytes_of, delimiter, first_piece, trimmed_end, text, compared, blank};

use std::error::Error;
use std::fmt;

const MAX_NAME: usize = 24;

fn are_printable(bytes: &[u8]) -> bool
    ensures { result ≡ list_all printable bytes.now }
{
    bytes.iter().all(|byte| matches!(byte, b' '..=b'~'))
}

// Whether a name may stand in a roster.
pub fn is_well_formed(name: &[u8]) -> bool
    ensures { result ≡ well_formed name.now }
{
    match name {
        [] | [b' ', ..] | [.., b' '] => false,
        _ => name.len() <= MAX_NAME && are_printable(name),
    }
}

// A predefined entity of XML 1.0, numbered by the byte that it stands for.
#[derive(Clone, Copy)]
enum Entity {
    Amp = b'&' as isize,
    Lt = b'<' as isize,
    Gt = b'>' as isize,
    Apos = b'\'' as isize,
    Quot = b'"' as isize,
}

impl Entity {
    // The entity whose escape goes on so after its ampersand.
    fn read(after: &[u8]) -> Option<Entity>
        ensures { result ≡ entity after.now }
    {
        match after {
            [b'a', b'm', b'p', b';', ..] => Some(Entity::Amp),
            [b'l', b't', b';', ..] => Some(Entity::Lt),
            [b'g', b't', b';', ..] => Some(Entity::Gt),
            [b'a', b'p', b'o', b's', b';', ..] => Some(Entity::Apos),
            [b'q', b'u', b'o', b't', b';', ..] => Some(Entity::Quot),
            _ => None,
        }
    }

    // How many bytes its escape has after the ampersand. If `read` gave the bytes after the escape, its last arm would not be proved.
    fn len(self) -> usize
        ensures { result ≡ size self }
    {
        match self {
            Entity::Amp => 4,
            Entity::Lt | Entity::Gt => 3,
            Entity::Apos | Entity::Quot => 5,
        }
    }
}

// Why a field has no text.
#[derive(Clone, Copy, Debug, PartialEq, Eq)]
pub enum Malformed {
    // An ampersand that begins no escape, or a less-than sign.
    BareDelimiter,
}

impl fmt::Display for Malformed {
    ghost output = { λ x. Some (malformed_text x) };

    fn fmt<W: fmt::Write>(&self, f: &mut fmt::Formatter<W>) -> fmt::Result {
        match self {
            Malformed::BareDelimiter => f.write_str("the name has a bare & or <"),
        }
    }
}

impl Error for Malformed {}

// A stretch of bytes that stand for themselves, or one escape. It borrows the field, so that names are compared without a copy.
#[derive(Clone, Copy)]
enum Piece<'a> {
    Plain(&'a [u8]),
    Escape(Entity),
}

// How many bytes at the front stand for themselves. One call of the library; a journal's words are cut in a crate that has no names.
fn plain_len(bytes: &[u8]) -> usize
    ensures { result ≡ position_or_len delimiter bytes.now }
{
    bytes
        .iter()
        .position(|byte| matches!(byte, b'&' | b'<'))
        .unwrap_or(bytes.len())
}

impl<'a> Piece<'a> {
    // The first piece of a text, and the bytes after it.
    fn read(bytes: &'a [u8]) -> Result<(Piece<'a>, &'a [u8]), Malformed>
        ensures { option_map (λ p. (bytes_of p.0, p.1.now)) (result_ok result) ≡ first_piece bytes.now }
    {
        match bytes {
            [b'&', after @ ..] => match Entity::read(after) {
                Some(entity) => Ok((Piece::Escape(entity), &after[entity.len()..])),
                None => Err(Malformed::BareDelimiter),
            },
            [b'<', ..] => Err(Malformed::BareDelimiter),
            _ => {
                let (plain, rest) = bytes.split_at(plain_len(bytes));
                Ok((Piece::Plain(plain), rest))
            }
        }
    }

    // What is left of a name after the piece, where the name begins with it.
    fn strip_from<'n>(self, name: &'n [u8]) -> Option<&'n [u8]>
        ensures { MatchOption result ((rest : List ℕ) → name.now ≢ bytes_of self.entry ++ rest) (λ x. name.now ≡ bytes_of self.entry ++ x.now) }
    {
        match self {
            Piece::Plain(bytes) => name.strip_prefix(bytes),
            Piece::Escape(entity) => name.strip_prefix(&[entity as u8]),
        }
    }
}

// A field without the spaces at its end: its text is the same, and whoever asks of many names trims it once.
pub fn trim_end(field: &[u8]) -> &[u8]
    ensures trimmed { result.now ≡ trimmed_end field.now }
    ensures same { text result.now ≡ text field.now }
{
    let spaces = field.iter().rev().position(|byte| *byte != b' ');
    &field[..field.len() - spaces.unwrap_or(field.len())]
}

// Whether the text of a field is this name.
pub fn reads_as(field: &[u8], name: &[u8]) -> Result<bool, Malformed>
    ensures { result ≡ compared name.now (text field.now) }
{
    let mut rest = trim_end(field);
    let mut left = Some(name);
    while !rest.is_empty() {
        let (piece, after) = Piece::read(rest)?;
        // Each turn takes a piece of another length, so this is no chain.
        if let Some(begun) = left {
            left = piece.strip_from(begun);
        }
        rest = after;
    }
    Ok(matches!(left, Some([])))
}

// Whether the text of a field is empty.
pub fn is_blank(field: &[u8]) -> Result<bool, Malformed>
    ensures { result ≡ blank (text field.now) }
{
    reads_as(field, &[])
}
