//! A call of a day and its answer, as values.

ghost use Rattle.std.specs.Prelude.{◌≡◌, Some};
ghost use Rattle.day.specs.States.{state_of};
ghost use Rattle.day.specs.Answers.{answer, after};
ghost use Rattle.day.specs.Requests.{request_of};
ghost use Rattle.day.specs.Replies.{reply_text};

use crate::open_day::OpenDay;
use refusal::Refusal;
use std::fmt;
use units::Cents;

// What is asked of a day.
#[derive(Clone, Copy)]
pub enum Call<'c> {
    Post(&'c [u8]),
    Balance(usize),
    Account(usize),
}

// What a day says to a call that it does not refuse: that a call was taken is an answer of its own, and no figure left out.
#[derive(Clone, Copy)]
pub enum Reply {
    Taken,
    Figure(Cents),
}

impl fmt::Display for Reply {
    ghost output = { λ reply. Some (reply_text reply) };

    fn fmt<W: fmt::Write>(&self, f: &mut fmt::Formatter<W>) -> fmt::Result {
        match self {
            Reply::Taken => f.write_str("taken"),
            Reply::Figure(cents) => {
                let figure = cents.0;
                write!(f, "{figure}")
            }
        }
    }
}

// What a day answers: a reply, or why it refuses.
pub type Answer = Result<Reply, Refusal>;

impl OpenDay<'_> {
    // Makes a call.
    pub fn make(&mut self, call: &Call<'_>) -> Answer
        ensures answers { result ≡ answer (state_of self.old) (request_of call.now) }
        ensures leaves { state_of self.new ≡ after (state_of self.old) (request_of call.now) }
    {
        match call {
            Call::Post(bytes) => self.post(bytes).map(|()| Reply::Taken),
            Call::Balance(member) => self.balance(*member).map(Reply::Figure),
            Call::Account(number) => self.account(*number).map(Reply::Figure),
        }
    }
}
