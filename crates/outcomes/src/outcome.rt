//! What became of a call, as it is printed.

ghost use Rattle.std.specs.Prelude.{◌≡◌, IfOk, Some};
ghost use Rattle.outcomes.specs.Outcomes.{reason_text, failure_text, label_text, report_line, counted, tally_text};
ghost use Rattle.outcomes.specs.declared.outcome.Reason.TheVariants.{NoMemory};
ghost use Rattle.outcomes.specs.declared.outcome.Failure.TheVariants.{Refused, NotTaken};

use day::Reply;
use refusal::Refusal;
use std::alloc::{AllocError, AllocFailed, Global};
use std::error::Error;
use std::fmt;

// Why a line is not taken.
#[derive(Clone, Copy, Debug, PartialEq, Eq)]
pub enum Reason {
    NoDay,
    DayIsOpen,
    UnknownWord,
    MissingWords,
    TooManyWords,
    NotANumber,
    UnreadableFile,
    NoMemory,
}

impl fmt::Display for Reason {
    ghost output = { λ x. Some (reason_text x) };

    fn fmt<W: fmt::Write>(&self, f: &mut fmt::Formatter<W>) -> fmt::Result {
        f.write_str(match self {
            Reason::NoDay => "no day is open",
            Reason::DayIsOpen => "a day is open",
            Reason::UnknownWord => "the word is unknown",
            Reason::MissingWords => "words are missing",
            Reason::TooManyWords => "too many words",
            Reason::NotANumber => "not a number",
            Reason::UnreadableFile => "the file cannot be read",
            Reason::NoMemory => "memory is wanting",
        })
    }
}

impl Error for Reason {}

// Why a line has no reply: the day turned its call back, or the line is not taken.
#[derive(Clone, Copy, Debug, PartialEq, Eq)]
pub enum Failure {
    Refused(Refusal),
    NotTaken(Reason),
}

impl fmt::Display for Failure {
    ghost output = { λ failure. Some (failure_text failure) };

    fn fmt<W: fmt::Write>(&self, f: &mut fmt::Formatter<W>) -> fmt::Result {
        match *self {
            Failure::Refused(refusal) => {
                let number = refusal.number();
                let layer = refusal.layer();
                let place = refusal.place();
                write!(f, "refused {number} {layer} {place} ({refusal})")
            }
            Failure::NotTaken(reason) => write!(f, "not taken ({reason})"),
        }
    }
}

impl Error for Failure {}

impl From<Refusal> for Failure {
    ghost from_gives = { λ refusal failure. failure ≡ Refused refusal };

    fn from(found: Refusal) -> Failure {
        Failure::Refused(found)
    }
}

impl From<Reason> for Failure {
    ghost from_gives = { λ reason failure. failure ≡ NotTaken reason };

    fn from(found: Reason) -> Failure {
        Failure::NotTaken(found)
    }
}

// Where memory for a call is wanting, it is not made.
impl From<AllocError> for Failure {
    ghost from_gives = { λ _ failure. failure ≡ NotTaken NoMemory };

    fn from(_error: AllocError) -> Failure {
        Failure::NotTaken(Reason::NoMemory)
    }
}

impl<T: Drop> From<AllocFailed<T>> for Failure {
    ghost from_gives = { λ _ failure. failure ≡ NotTaken NoMemory };

    fn from(error: AllocFailed<T>) -> Failure {
        Failure::from(AllocError::from(error))
    }
}

// What became of a line: the day's reply, or why there is none.
pub type Outcome = Result<Reply, Failure>;

// A line of the journal, or a record of the file that it names, each by its number from 1.
#[derive(Clone, Copy)]
pub enum Label {
    Line(u64),
    Record(u64, u64),
}

impl fmt::Display for Label {
    ghost output = { λ x. Some (label_text x) };

    fn fmt<W: fmt::Write>(&self, f: &mut fmt::Formatter<W>) -> fmt::Result {
        match *self {
            Label::Line(line) => write!(f, "{line}"),
            Label::Record(line, nth) => write!(f, "{line}.{nth}"),
        }
    }
}

// The line that is printed of a call.
pub fn report(
    heap: Global,
    label: Label,
    word: &[u8],
    outcome: Outcome,
) -> Result<Vec<u8>, AllocError>
    ensures { IfOk result (λ line. line.items ≡ report_line label word.now outcome) }
{
    let head = format!(in heap; "{label} ")?;
    let tail = match outcome {
        Ok(reply) => format!(in heap; " {reply}\n")?,
        Err(failure) => format!(in heap; " {failure}\n")?,
    };
    let mut line = Vec::from_slice(heap, head.as_bytes())?;
    line.extend_from_slice(word)?;
    line.extend_from_slice(tail.as_bytes())?;
    Ok(line)
}

// How many calls came to each end.
#[derive(Clone, Copy, Default)]
pub struct Tally {
    pub taken: u64,
    pub refused: u64,
    pub answered: u64,
    pub not_taken: u64,
}

impl Tally {
    pub fn count(&mut self, outcome: Outcome)
        ensures { self.new ≡ counted self.old outcome }
    {
        match outcome {
            Ok(Reply::Taken) => self.taken = self.taken.saturating_add(1),
            Ok(Reply::Figure(_)) => self.answered = self.answered.saturating_add(1),
            Err(Failure::Refused(_)) => self.refused = self.refused.saturating_add(1),
            Err(Failure::NotTaken(_)) => self.not_taken = self.not_taken.saturating_add(1),
        }
    }
}

impl fmt::Display for Tally {
    ghost output = { λ x. Some (tally_text x) };

    fn fmt<W: fmt::Write>(&self, f: &mut fmt::Formatter<W>) -> fmt::Result {
        let taken = self.taken;
        let refused = self.refused;
        let answered = self.answered;
        let not_taken = self.not_taken;
        write!(
            f,
            "taken {taken}, refused {refused}, answered {answered}, not taken {not_taken}"
        )
    }
}
