//! A day that takes postings.

ghost use Rattle.std.specs.Prelude.{◌≡◌, length};
ghost use Rattle.roster.specs.Rosters.{roster_of};
ghost use Rattle.day.specs.Days.{fresh};
ghost use Rattle.day.specs.States.{state_of};
ghost use Rattle.day.specs.Answers.{post_answer, posted, balance_answer, account_of, account_answer};

use crate::account::Account;
use crate::sums::{Billed, sum_bills};
use postings::Posting;
use record::read;
use refusal::Refusal;
use register::Register;
use roster::Roster;
use units::Cents;

// The places are lent, so that no call asks for memory.
#[derive(Drop)]
pub struct OpenDay<'a> {
    roster: Roster<'a>,
    records: Register<'a, Posting>,
}

impl<'a> OpenDay<'a> {
    // A day with nothing posted. The roster was asked for before, so this cannot refuse.
    pub fn open(roster: Roster<'a>, places: &'a mut [Option<Posting>]) -> OpenDay<'a>
        ensures { state_of result ≡ fresh (roster_of roster.entry) (length places.old) }
    {
        OpenDay {
            roster,
            records: Register::new(places),
        }
    }

    // Posts a record.
    pub fn post(&mut self, bytes: &[u8]) -> Result<(), Refusal>
        ensures answers { result ≡ post_answer (state_of self.old) bytes.now }
        ensures leaves { state_of self.new ≡ posted (state_of self.old) bytes.now }
    {
        // A copy of two references: no rule covers yet that a part is lent of a day that is lent to change.
        let roster = self.roster;
        let posting = read(bytes, &roster)?;
        self.records.put(posting).map(|_| ())
    }

    // What a member owes: its bills, a credit counting below zero.
    pub fn balance(&self, member: usize) -> Result<Cents, Refusal>
        ensures { result ≡ balance_answer (state_of self.now) member }
    {
        if member < self.roster.member_count() {
            Ok(sum_bills(&self.records, Billed::Member(member)))
        } else {
            Err(Refusal::WrongArgument(0))
        }
    }

    // What an account of the pool holds; nothing is settled yet, so nothing is left over.
    fn in_account(&self, account: Account) -> Cents
        ensures { result.0 ≡ account_of (state_of self.now) account }
    {
        match account {
            Account::Rounding | Account::Neutrality => Cents(0),
            Account::PassThrough => -sum_bills(&self.records, Billed::Everyone),
        }
    }

    // What the account of a number holds.
    pub fn account(&self, number: usize) -> Result<Cents, Refusal>
        ensures { result ≡ account_answer (state_of self.now) number }
    {
        let account = Account::try_from(number).map_err(|_| Refusal::WrongArgument(0))?;
        Ok(self.in_account(account))
    }
}
