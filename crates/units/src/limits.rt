//! Quantities that the rules limit, in a type that keeps its limits.

ghost use Rattle.std.specs.Prelude.{◌≡◌, ⊤, MatchResult};
ghost use Rattle.units.specs.Bounds.{Between};

use crate::bounds::OutOfRange;
use crate::quantity::Quantity;
use std::alloc::AllocError;

// At most `BELOW` under 0, and at most `ABOVE` over it.
#[derive(Copy)]
pub struct Limited<Q: Quantity, const BELOW: u32, const ABOVE: u32> {
    pub value: Q,
    ghost within: { Between BELOW ABOVE (Q.amount value) },
}

// From 0 to the limit.
pub type UpTo<Q, const LIMIT: u32> = Limited<Q, 0, LIMIT>;

// At most the limit, above or below 0.
pub type Bounded<Q, const LIMIT: u32> = Limited<Q, LIMIT, LIMIT>;

// By hand: no derive makes it beside a ghost field that cites a bound.
impl<Q: Quantity, const BELOW: u32, const ABOVE: u32> Clone for Limited<Q, BELOW, ABOVE> {
    ghost is_clone = { λ x y. y ≡ x };

    ghost is_infallible = { λ _. ⊤ };

    fn clone(&self) -> Result<Limited<Q, BELOW, ABOVE>, AllocError> {
        Ok(*self)
    }
}

impl<Q: Quantity, const BELOW: u32, const ABOVE: u32> TryFrom<i64> for Limited<Q, BELOW, ABOVE> {
    type Error = OutOfRange;

    ghost try_from_gives = { λ number r. MatchResult r (λ x. (Q.amount x.value ≡ number) × Between BELOW ABOVE number) (λ _. Between BELOW ABOVE number → ⊥) };

    fn try_from(number: i64) -> Result<Limited<Q, BELOW, ABOVE>, OutOfRange> {
        if -i64::from(BELOW) <= number && number <= i64::from(ABOVE) {
            Ok(Limited {
                value: Q::of(number),
            })
        } else {
            Err(OutOfRange)
        }
    }
}
