//! The fields of a record, each read or turned back.

ghost use Rattle.std.specs.Prelude.{◌≡◌, ◌≤◌, length, MatchOption, MatchResult};
ghost use Rattle.std.specs.Option.{ok_or};
ghost use Rattle.names.specs.Names.{text};
ghost use Rattle.record.specs.Reading.{framed, kind_in, direction_in, number_after, blank_as};

use names::is_blank;
use postings::Kind;
use refusal::Refusal;
use units::{Direction, OutOfRange};

const LENGTH: usize = 64;

pub(crate) fn is_framed(bytes: &[u8]) -> bool
    ensures { result ≡ framed bytes.now }
{
    bytes.len() == LENGTH && bytes[LENGTH - 1] == b'\n'
}

// The kind's letters are cases of a slice pattern, as the rules have it.
pub(crate) fn read_kind(bytes: &[u8]) -> Result<Kind, Refusal>
    ensures { result ≡ kind_in bytes.now }
{
    let [k0, k1, k2, ..] = bytes else {
        return Err(Refusal::UnknownKind);
    };
    match (char::from(*k0), char::from(*k1), char::from(*k2)) {
        ('A', 'W', 'D') => Ok(Kind::Award),
        ('M', 'I', 'L') => Ok(Kind::Mileage),
        ('C', 'A', 'P') => Ok(Kind::Capacity),
        ('O', 'B', 'L') => Ok(Kind::Obligation),
        ('B', 'I', 'L') => Ok(Kind::Bill),
        _ => Err(Refusal::UnknownKind),
    }
}

pub(crate) fn read_direction(letter: u8) -> Result<Direction, Refusal>
    ensures { result ≡ direction_in letter }
{
    Direction::try_from(letter).map_err(|_| Refusal::UnknownDirection)
}

// The number that decimal digits write: at most six, which fit. The loop is none of the library's folds: their closure could not
// show that its product fits.
pub(crate) fn read_digits(digits: &[u8], refusal: Refusal) -> Result<u32, Refusal>
    requires { length digits.now ≤ 6 }
    ensures { result ≡ ok_or (number_after 0 digits.now) refusal }
{
    let mut n = 0;
    for d in digits {
        match d {
            b'0'..=b'9' => n = n * 10 + u32::from(*d - b'0'),
            _ => return Err(refusal),
        }
    }
    Ok(n)
}

// The value of a type whose number decimal digits write; a number of six digits fits a machine word. It
// fails by its field's check, a number of a record by its index.
pub(crate) fn read_value<T: TryFrom<usize, Error = OutOfRange>>(
    digits: &[u8],
    refusal: Refusal,
) -> Result<T, Refusal>
    requires { length digits.now ≤ 6 }
    ensures { MatchOption (number_after 0 digits.now) (result ≡ Err refusal) (λ n. MatchResult result (λ value. T.try_from_gives n (Ok value)) (λ e. (e ≡ refusal) × ((error : OutOfRange) × T.try_from_gives n (Err error)))) }
{
    let number = read_digits(digits, refusal)?;
    T::try_from(number as usize).map_err(|_| refusal)
}

// Whether a name field is blank, as a kind without a name has it, and no other: both ways it is turned back alike, so one test
// takes what is wanted.
pub(crate) fn check_blank(field: &[u8], wanted: bool) -> Result<(), Refusal>
    ensures { result ≡ blank_as wanted (text field.now) }
{
    match is_blank(field) {
        Ok(blank) if blank == wanted => Ok(()),
        _ => Err(Refusal::MalformedName),
    }
}
