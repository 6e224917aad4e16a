//! Where in the day a posting belongs, and what its numbers may be: each in a type that keeps its limits.

ghost use Rattle.std.specs.Prelude.{◌≡◌, ◌<◌, ◌≤◌, MatchResult, Some, codes};
ghost use Rattle.std.specs.Result.{result_ok};
ghost use Rattle.units.specs.Directions.{direction_of};
ghost use Rattle.units.specs.Bounds.{Within, full_accuracy};

use crate::limits::UpTo;
use crate::quantity::Kw;
use std::error::Error;
use std::fmt;

// A number or a letter that is none of a type's values.
#[derive(Clone, Copy, Debug, PartialEq, Eq)]
pub struct OutOfRange;

impl fmt::Display for OutOfRange {
    ghost output = { λ _. Some (codes "out of range") };

    fn fmt<W: fmt::Write>(&self, f: &mut fmt::Formatter<W>) -> fmt::Result {
        f.write_str("out of range")
    }
}

impl Error for OutOfRange {}

// Up: the site is told to give more, down: less.
#[derive(Clone, Copy, PartialEq, Eq)]
pub enum Direction {
    Up,
    Down,
}

// By its letter, a case for each, as the rules have it.
impl TryFrom<u8> for Direction {
    type Error = OutOfRange;

    ghost try_from_gives = { λ letter r. result_ok r ≡ direction_of letter };

    fn try_from(letter: u8) -> Result<Direction, OutOfRange> {
        match char::from(letter) {
            'U' => Ok(Direction::Up),
            'D' => Ok(Direction::Down),
            _ => Err(OutOfRange),
        }
    }
}

// One of N, counted from 0.
#[derive(Clone, Copy, PartialEq, Eq)]
pub struct Below<const N: u8> {
    pub value: u8,
    ghost within: { value < N },
}

impl<const N: u8> TryFrom<usize> for Below<N> {
    type Error = OutOfRange;

    ghost try_from_gives = { λ number r. MatchResult r (λ b. b.value ≡ number) (λ _. N ≤ number) };

    fn try_from(number: usize) -> Result<Below<N>, OutOfRange> {
        match u8::try_from(number) {
            Ok(value) if value < N => Ok(Below { value }),
            _ => Err(OutOfRange),
        }
    }
}

// An hour of the trading day.
pub type Hour = Below<24>;

// A quarter of an hour.
pub type Quarter = Below<4>;

// How often a posting was corrected, 1 to 999: the higher version stands. The one number counted from 1, so `Below` has no lower
// bound.
#[derive(Clone, Copy, PartialEq, Eq)]
pub struct Version {
    pub value: u16,
    ghost low: { 1 ≤ value },
    ghost high: { value ≤ 999 },
}

impl TryFrom<usize> for Version {
    type Error = OutOfRange;

    ghost try_from_gives = { λ number r. MatchResult r (λ v. v.value ≡ number) (λ _. (1 ≤ number) → 999 < number) };

    fn try_from(number: usize) -> Result<Version, OutOfRange> {
        match u16::try_from(number) {
            Ok(value) if value >= 1 && value <= 999 => Ok(Version { value }),
            _ => Err(OutOfRange),
        }
    }
}

// How well a site followed its signal, in hundredths of a percent: 0 to 10,000. A type of its own, so that no other number is
// taken for one.
#[derive(Clone, Copy)]
pub struct Accuracy {
    pub value: i64,
    ghost within: { Within full_accuracy value },
}

impl Accuracy {
    pub const FULL: i64 = 10_000;
}

// The distance that a site was told to move in a quarter, less what it only made up for.
pub type AdjustedMileage = UpTo<Kw, 11_250_000>;
