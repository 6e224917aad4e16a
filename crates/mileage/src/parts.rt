//! A day-ahead and a real-time part, within their limits.

ghost use Rattle.std.specs.Prelude.{⊤, ◌≡◌, pos, ◌+ℤ◌, ◌≤ℤ◌};

use std::alloc::AllocError;
use units::{Cents, Kw, Quantity, UpTo};

// A day-ahead and a real-time part, together at most the limit.
#[derive(Copy)]
pub struct Parts<Q: Quantity, const LIMIT: u32> {
    pub day_ahead: UpTo<Q, LIMIT>,
    pub real_time: UpTo<Q, LIMIT>,
    ghost together: { (Q.amount day_ahead.value +ℤ Q.amount real_time.value) ≤ℤ pos LIMIT },
}

// By hand: no derive makes it beside a ghost field that cites a bound.
impl<Q: Quantity, const LIMIT: u32> Clone for Parts<Q, LIMIT> {
    ghost is_clone = { λ x y. y ≡ x };

    ghost is_infallible = { λ _. ⊤ };

    fn clone(&self) -> Result<Parts<Q, LIMIT>, AllocError> {
        Ok(*self)
    }
}

// The mileage that was scheduled day-ahead, and the rest: together at most an adjusted mileage.
pub type MileageParts = Parts<Kw, 11_250_000>;

// What a mileage is paid: at most the greatest mileage at the highest price and full accuracy.
pub type Payment = UpTo<Cents, 112_500_000>;

// What the two parts are paid.
pub type MileagePayment = Parts<Cents, 112_500_000>;
