//! A posting as an element of a register.

ghost use Rattle.std.specs.Prelude.{◌≡◌};
ghost use Rattle.postings.specs.Postings.{posting_shape, signed};
ghost use Rattle.postings.specs.Keys;

use crate::posting::{Bill, Content, Key, Posting, Side, Subject};
use refusal::Document;
use register::Entry;
use units::{Bounded, Cents};

impl Entry for Posting {
    type Key = Key;

    ghost shape = { posting_shape };

    ghost decides = { Keys.decides };

    fn key(&self) -> Key {
        Key {
            direction: self.direction,
            hour: self.hour.value,
            subject: match self.content {
                Content::Award(award) => Subject::Award(award.site.value),
                Content::Mileage(_) => Subject::Mileage,
                Content::Capacity(_) => Subject::Capacity,
                Content::Obligation(obligation) => Subject::Obligation(obligation.member.value),
                Content::Bill(bill) => Subject::Bill(bill.member.value, bill.number.0.value),
            },
        }
    }

    fn version(&self) -> u16 {
        match self.content {
            Content::Award(award) => award.version.value,
            Content::Mileage(prices) => prices.version.value,
            Content::Capacity(prices) => prices.version.value,
            Content::Obligation(obligation) => obligation.version.value,
            // A bill has no version, so that none is ever replaced.
            Content::Bill(_) => 0,
        }
    }

    fn document(&self) -> Document {
        Document::Record
    }

    fn is_under(&self, key: &Key) -> bool {
        *key == self.key()
    }
}

impl Bill {
    // What the bill adds to its member's balance.
    pub fn signed(self) -> Bounded<Cents, 999_999>
        ensures { result.value.0 ≡ signed self.side self.amount.value.0 }
    {
        let value = match self.side {
            Side::Charge => self.amount.value,
            Side::Credit => -self.amount.value,
        };
        Bounded { value }
    }
}
