//! Why a call was turned back: one case for each check, with its number, its layer and its place.

#![tactic(auto)]

ghost use Rattle.std.specs.Prelude.{◌≡◌, Some, MatchResult};
ghost use Rattle.refusal.specs.Refusals.{number_of, layer_of, place_of, version_place};
ghost use Rattle.refusal.specs.Texts.{layer_text, explanation};

use std::error::Error;
use std::fmt;

// The layer whose check turned a call back.
#[derive(Clone, Copy, Debug, PartialEq, Eq)]
pub enum Layer {
    Record,
    Register,
    Day,
}

impl fmt::Display for Layer {
    ghost output = { λ layer. Some (layer_text layer) };

    fn fmt<W: fmt::Write>(&self, f: &mut fmt::Formatter<W>) -> fmt::Result {
        f.write_str(match self {
            Layer::Record => "record",
            Layer::Register => "register",
            Layer::Day => "day",
        })
    }
}

// What was posted: its version stands at another place in each.
#[derive(Clone, Copy, Debug, PartialEq, Eq)]
pub enum Document {
    Record,
    Signal,
    Watch,
}

impl Document {
    fn version_place(self) -> u16
        ensures { result ≡ version_place self }
    {
        match self {
            Document::Record => 6,
            Document::Signal => 4,
            Document::Watch => 3,
        }
    }
}

#[derive(Clone, Copy, Debug, PartialEq, Eq)]
pub enum Refusal {
    // Opening a day.
    MemberCount,
    SiteCount,
    SiteWithoutMember(u8),
    BadName(u8),
    // Reading a record.
    RecordLength,
    UnknownKind,
    UnknownDirection,
    WrongHour,
    WrongVersion,
    MalformedName,
    UnknownName,
    // The number by its index, 0 to 4.
    WrongNumber(u8),
    // Putting into a register.
    VersionNotHigher(Document),
    RegisterFull,
    // Posting a signal or a watch: the argument, the sample and the minute each by its index.
    WrongPostingArgument(u8),
    SignalLength,
    WrongSample(u8),
    WatchLength,
    WrongMinute(u8),
    // Asking: the argument by its index, which is 0 where a question has but one.
    WrongArgument(u8),
    // Asking for the no pay of a quarter: no award or no watch was posted.
    NotPosted,
}

// What a refusal carries: a table each over all checks, since no one number of a check says the others.
impl Refusal {
    pub fn number(self) -> u8
        ensures { result ≡ number_of self }
    {
        match self {
            Refusal::MemberCount => 1,
            Refusal::SiteCount => 2,
            Refusal::SiteWithoutMember(_) => 2,
            Refusal::BadName(_) => 3,
            Refusal::RecordLength => 10,
            Refusal::UnknownKind => 11,
            Refusal::UnknownDirection => 12,
            Refusal::WrongHour => 13,
            Refusal::WrongVersion => 14,
            Refusal::MalformedName => 15,
            Refusal::UnknownName => 16,
            Refusal::WrongNumber(_) => 17,
            Refusal::VersionNotHigher(_) => 18,
            Refusal::RegisterFull => 19,
            Refusal::WrongPostingArgument(_) => 20,
            Refusal::SignalLength => 21,
            Refusal::WrongSample(_) => 22,
            Refusal::WatchLength => 23,
            Refusal::WrongMinute(_) => 24,
            Refusal::WrongArgument(_) => 50,
            Refusal::NotPosted => 51,
        }
    }

    pub fn layer(self) -> Layer
        ensures { result ≡ layer_of self }
    {
        match self {
            Refusal::MemberCount
            | Refusal::SiteCount
            | Refusal::SiteWithoutMember(_)
            | Refusal::BadName(_)
            | Refusal::WrongArgument(_)
            | Refusal::NotPosted => Layer::Day,
            Refusal::RecordLength
            | Refusal::UnknownKind
            | Refusal::UnknownDirection
            | Refusal::WrongHour
            | Refusal::WrongVersion
            | Refusal::MalformedName
            | Refusal::UnknownName
            | Refusal::WrongNumber(_)
            | Refusal::WrongPostingArgument(_)
            | Refusal::SignalLength
            | Refusal::WrongSample(_)
            | Refusal::WatchLength
            | Refusal::WrongMinute(_) => Layer::Record,
            Refusal::VersionNotHigher(_) | Refusal::RegisterFull => Layer::Register,
        }
    }

    pub fn place(self) -> u16
        ensures { result ≡ place_of self }
    {
        match self {
            Refusal::MemberCount => 0,
            Refusal::SiteCount => 32,
            Refusal::SiteWithoutMember(site) => u16::from(site),
            Refusal::BadName(name) => u16::from(name),
            Refusal::RecordLength => 0,
            Refusal::UnknownKind => 0,
            Refusal::UnknownDirection => 3,
            Refusal::WrongHour => 4,
            Refusal::WrongVersion => 6,
            Refusal::MalformedName => 9,
            Refusal::UnknownName => 9,
            Refusal::WrongNumber(index) => 33 + 6 * u16::from(index),
            Refusal::VersionNotHigher(document) => document.version_place(),
            Refusal::RegisterFull => 0,
            Refusal::WrongPostingArgument(index) => u16::from(index),
            Refusal::SignalLength => 0,
            Refusal::WrongSample(index) => u16::from(index),
            Refusal::WatchLength => 0,
            Refusal::WrongMinute(index) => u16::from(index),
            Refusal::WrongArgument(index) => u16::from(index),
            Refusal::NotPosted => 0,
        }
    }
}

// In a few words, for a person.
impl fmt::Display for Refusal {
    ghost output = { λ refusal. Some (explanation refusal) };

    fn fmt<W: fmt::Write>(&self, f: &mut fmt::Formatter<W>) -> fmt::Result {
        f.write_str(match self {
            Refusal::MemberCount => "a roster has 1 to 16 members",
            Refusal::SiteCount => "a roster has at most 32 sites",
            Refusal::SiteWithoutMember(_) => "the site's member is not on the roster",
            Refusal::BadName(_) => "the name is wrong or stands twice",
            Refusal::RecordLength => "a record has 64 bytes, the last a newline",
            Refusal::UnknownKind => "the kind is unknown",
            Refusal::UnknownDirection => "the direction is not U or D",
            Refusal::WrongHour => "the hour is not 00 to 23",
            Refusal::WrongVersion => "the version or bill number is not 001 to 999",
            Refusal::MalformedName => "the name is malformed, or blank or filled against its kind",
            Refusal::UnknownName => "the name is not on the roster",
            Refusal::WrongNumber(_) => "the number has not six digits or is past its limit",
            Refusal::VersionNotHigher(_) => "a version as high is held, or the bill is",
            Refusal::RegisterFull => "every place is taken",
            Refusal::WrongPostingArgument(_) => "the argument of the posting is out of range",
            Refusal::SignalLength => "a signal quarter has 1800 bytes",
            Refusal::WrongSample(_) => "the sample is out of limits",
            Refusal::WatchLength => "a watch quarter has 420 bytes",
            Refusal::WrongMinute(_) => "the minute is bad",
            Refusal::WrongArgument(_) => "the argument is out of range",
            Refusal::NotPosted => "the award or the watch quarter is not posted",
        })
    }
}

impl Error for Refusal {}

// An argument of a posting in its type, or the refusal of the argument by its index.
pub fn read_argument<N, T: TryFrom<N>>(value: N, index: u8) -> Result<T, Refusal>
where
    T::Error: Drop,
    ensures { MatchResult result (λ t. T.try_from_gives value (Ok t)) (λ refusal. (refusal ≡ Refusal.WrongPostingArgument index) × ((error : _) × T.try_from_gives value (Err error))) }
{
    T::try_from(value).map_err(|_| Refusal::WrongPostingArgument(index))
}
