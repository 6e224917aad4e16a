//! Power, price and money: three types, so that none is added to another.

ghost use Rattle.std.specs.Prelude.{◌≡◌, ℤ, ◌+ℤ◌, ◌-ℤ◌, neg_ℤ, FitsSigned};
ghost use Rattle.std.specs.Int.{w64};

use std::ops::{Add, Neg, Sub};

// A whole number of a unit. Each unit is a struct of its own, so that none is taken for another, and says how it is made.
pub trait Quantity: Copy {
    ghost amount: { Self → ℤ };

    fn of(number: i64) -> Self
        ensures { amount result ≡ number };
}

// Power, or mileage, in whole kilowatts.
#[derive(Clone, Copy, PartialEq, Eq, PartialOrd, Ord)]
pub struct Kw(pub i64);

// A price in whole cents per megawatt.
#[derive(Clone, Copy)]
pub struct CentsPerMw(pub i64);

// Money in whole cents: above zero what a member owes, below zero what it is owed.
#[derive(Clone, Copy)]
pub struct Cents(pub i64);

impl Quantity for Kw {
    ghost amount = { λ p. p.0 };

    fn of(number: i64) -> Kw {
        Kw(number)
    }
}

impl Quantity for CentsPerMw {
    ghost amount = { λ p. p.0 };

    fn of(number: i64) -> CentsPerMw {
        CentsPerMw(number)
    }
}

impl Quantity for Cents {
    ghost amount = { λ p. p.0 };

    fn of(number: i64) -> Cents {
        Cents(number)
    }
}

// An impl for each unit, so that power is never added to money.
impl Add<Kw> for Kw {
    type Output = Kw;

    ghost can_add = { λ p q. FitsSigned w64 (p.0 +ℤ q.0) };

    ghost add_gives = { λ p q r. r.0 ≡ p.0 +ℤ q.0 };

    fn add(self, rhs: Kw) -> Kw {
        Kw(self.0 + rhs.0)
    }
}

impl Sub<Kw> for Kw {
    type Output = Kw;

    ghost can_sub = { λ p q. FitsSigned w64 (p.0 -ℤ q.0) };

    ghost sub_gives = { λ p q r. r.0 ≡ p.0 -ℤ q.0 };

    fn sub(self, rhs: Kw) -> Kw {
        Kw(self.0 - rhs.0)
    }
}

impl Add<Cents> for Cents {
    type Output = Cents;

    ghost can_add = { λ p q. FitsSigned w64 (p.0 +ℤ q.0) };

    ghost add_gives = { λ p q r. r.0 ≡ p.0 +ℤ q.0 };

    fn add(self, rhs: Cents) -> Cents {
        Cents(self.0 + rhs.0)
    }
}

impl Neg for Cents {
    type Output = Cents;

    ghost can_neg = { λ p. FitsSigned w64 (neg_ℤ p.0) };

    ghost neg_gives = { λ p r. r.0 ≡ neg_ℤ p.0 };

    fn neg(self) -> Cents {
        Cents(-self.0)
    }
}
