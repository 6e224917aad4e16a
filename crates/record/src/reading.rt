//! The 64 bytes of a record, read into a posting: the first check that fails turns it back.

ghost use Rattle.std.specs.Prelude.{◌≡◌, Ok, Err, MatchResult};
ghost use Rattle.roster.specs.Rosters.{roster_of};
ghost use Rattle.postings.specs.Postings.{said};
ghost use Rattle.record.specs.Reading.{reading};

use crate::fields::{is_framed, read_direction, read_kind, read_value};
use crate::kinds::read_named;
use crate::numbers::Numbers;
use postings::Posting;
use refusal::Refusal;
use roster::Roster;
use units::{Hour, Version};

// What the bytes post, or why they are turned back.
pub fn read(bytes: &[u8], roster: &Roster<'_>) -> Result<Posting, Refusal>
    ensures value { MatchResult result (λ p. reading (roster_of roster.now) bytes.now ≡ Ok (said p)) (λ e. reading (roster_of roster.now) bytes.now ≡ Err e) }
{
    // Each field stands at its place in the format.
    if !is_framed(bytes) {
        return Err(Refusal::RecordLength);
    }
    let kind = read_kind(bytes)?;
    let direction = read_direction(bytes[3])?;
    let hour: Hour = read_value(&bytes[4..6], Refusal::WrongHour)?;
    let serial: Version = read_value(&bytes[6..9], Refusal::WrongVersion)?;
    let named = read_named(kind, &bytes[9..33], roster)?;
    let numbers = Numbers {
        serial,
        digits: &bytes[33..63],
    };
    let content = numbers.content(named)?;
    Ok(Posting {
        direction,
        hour,
        content,
    })
}
