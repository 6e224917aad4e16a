//! The calls of a day, each made by a replay.

ghost use Rattle.std.specs.Prelude.{◌≡◌, [], ◌∷◌, ◌++◌, map, IfOk, MatchResult};
ghost use Rattle.std.specs.Option.{option_map};
ghost use Rattle.day.specs.Requests.{request_of};
ghost use Rattle.day.specs.States.{state_of};
ghost use Rattle.history.specs.Runs.{play, events};
ghost use Rattle.refusal.specs.Checks.{viewed};
ghost use Rattle.journal.specs.Reading.{request_of as line_request};
ghost use Rattle.day.specs.declared.calls.Call.TheVariants.{Post};
ghost use Rattle.session.specs.Calls.{outcome, argument_of, asked, postings_of, posting_of, Made, Answered};

use day::{Answer, Call, OpenDay};
use history::replay;
use journal::{Line, records};
use outcomes::{Outcome, Reason};
use std::alloc::{AllocError, Global};

// What becomes of a line by what the day answers.
pub fn outcome_of(answer: Answer) -> Outcome
    ensures { result ≡ outcome answer }
{
    Ok(answer?)
}

// A word that is no number, or too large for one, is out of the range of every argument.
pub fn argument(number: Option<usize>) -> usize
    ensures { result ≡ argument_of number }
{
    number.unwrap_or(usize::MAX)
}

// The call that a question makes.
pub fn question<'c>(line: Line<'c>) -> Option<Call<'c>>
    ensures { option_map request_of result ≡ asked (line_request line.entry) }
{
    match line {
        Line::Balance(member) => Some(Call::Balance(argument(member))),
        Line::Account(account) => Some(Call::Account(argument(account))),
        _ => None,
    }
}

// Makes one call. The allocator is passed beside the day, as to all that asks for memory.
pub fn make_one(heap: Global, day: &mut OpenDay<'_>, call: Call<'_>) -> Outcome
    ensures { Made (request_of call.entry) (state_of day.old) result (state_of day.new) }
{
    let answers = replay(heap, day, &[call])?;
    outcome_of(answers[0])
}

// The text of a record with the newline that the journal's line has taken from it.
fn with_newline(heap: Global, text: &[u8]) -> Result<Vec<u8>, AllocError>
    ensures { IfOk result (λ line. line.items ≡ text.now ++ 10 ∷ []) }
{
    let mut line = Vec::from_slice(heap, text)?;
    line.push(b'\n')?;
    Ok(line)
}

// Posts a record whose newline the line does not have.
pub fn post(heap: Global, day: &mut OpenDay<'_>, text: &[u8]) -> Outcome
    ensures { Made (posting_of text.now) (state_of day.old) result (state_of day.new) }
{
    let line = with_newline(heap, text)?;
    make_one(heap, day, Call::Post(line.as_slice()))
}

// Makes the call of a line, if it makes one by itself: a record or a question.
pub fn answer(heap: Global, day: &mut OpenDay<'_>, line: Result<Line<'_>, Reason>) -> Outcome
    ensures { Answered (viewed line_request line.entry) (state_of day.old) result (state_of day.new) }
{
    match line? {
        Line::Record(text) => post(heap, day, text),
        line => {
            let call = question(line).ok_or(Reason::DayIsOpen)?;
            make_one(heap, day, call)
        }
    }
}

fn post_each<'c>(heap: Global, texts: &[&'c [u8]]) -> Result<Vec<Call<'c>>, AllocError>
    ensures { IfOk result (λ calls. calls.items ≡ map Post texts.now) }
{
    texts
        .iter()
        .map(|record_text| Call::Post(*record_text))
        .collect(heap)
}

// The calls that post the records of a file. The row of records is let go before the calls are made, so that the answers take its room.
fn postings<'c>(heap: Global, text: &'c [u8]) -> Result<Vec<Call<'c>>, AllocError>
    ensures { IfOk result (λ calls. map request_of calls.items ≡ postings_of text.now) }
{
    let texts = records(heap, text)?;
    post_each(heap, texts.as_slice())
}

// Posts each record of a file.
pub fn post_all(heap: Global, day: &mut OpenDay<'_>, text: &[u8]) -> Result<Vec<Answer>, AllocError>
    ensures leaves { MatchResult result (λ v. state_of day.new ≡ play (state_of day.old) (postings_of text.now)) (λ _. state_of day.new ≡ state_of day.old) }
    ensures answers { IfOk result (λ v. v.items ≡ map (λ e. e.answer) (events (state_of day.old) (postings_of text.now))) }
{
    let calls = postings(heap, text)?;
    replay(heap, day, calls.as_slice())
}
