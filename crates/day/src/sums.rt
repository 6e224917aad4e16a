//! Sums over the bills held.

ghost use Rattle.std.specs.Prelude.{◌≡◌, ◌*◌, ◌≤◌, unsigned_abs};
ghost use Rattle.register.specs.Registers.{value_of, sum_held};
ghost use Rattle.register.specs.Held.{places_in};
ghost use Rattle.register.specs.Views.{views};
ghost use Rattle.postings.specs.Postings.{said};
ghost use Rattle.day.specs.Bills.{counts, cents_for};

use postings::{Bill, Content, Posting};
use register::Register;
use units::{Bounded, Cents};

// Whose bills are summed: a choice with names, which contracts and laws cite.
#[derive(Clone, Copy)]
pub enum Billed {
    Member(usize),
    Everyone,
}

impl Billed {
    fn counts(self, bill: Bill) -> bool
        ensures { result ≡ counts self bill.member.value }
    {
        match self {
            Billed::Member(member) => usize::from(bill.member.value) == member,
            Billed::Everyone => true,
        }
    }
}

// What one place adds.
fn cents_of(place: &Option<Posting>, billed: Billed) -> Bounded<Cents, 999_999>
    ensures { result.value.0 ≡ value_of (λ p. cents_for billed (said p).terms) place.now }
{
    if let Some(posting) = place
        && let Content::Bill(bill) = posting.content
        && billed.counts(bill)
    {
        bill.signed()
    } else {
        Bounded { value: Cents(0) }
    }
}

// The sum over the postings held: there are so few keys of bills that it fits, however many places there are.
pub(crate) fn sum_bills(records: &Register<'_, Posting>, billed: Billed) -> Cents
    ensures value { result.0 ≡ sum_held (λ said. cents_for billed said.terms) (views said (places_in records.now)) }
    ensures bound { unsigned_abs result.0 ≤ 767232 * 999999 }
{
    // No iterator's sum: that of signed numbers says nothing of its bound.
    let mut total = Cents(0);
    for place in records.entries() {
        total = total + cents_of(place, billed).value;
    }
    total
}
