//! What is not paid of a quarter.

ghost use Rattle.std.specs.Prelude.{◌≡◌, ◌+ℤ◌};
ghost use Rattle.watch.specs.Assessed.{available};
ghost use Rattle.nopay.specs.NoPay.{causes, quantity, unavailable, governing_cause, no_pay_award, no_pay_self_provision, Withheld, Governs};

use crate::figures::{Figures, NoPay};
use crate::unavailability::{CAUSES, Unavailability, Unavailable};
use postings::Award;
use units::{Direction, UpTo};
use watch::Availability;

// Withheld from the award, day-ahead and real-time, then from the self-provision; the rest is dropped.
fn withhold(award: &Award, not_available: Unavailable) -> Figures
    ensures award { result.award.value.0 ≡ no_pay_award award.now.day_ahead.value.0 award.now.real_time.value.0 award.now.disqualified.value.0 not_available.value.0 }
    ensures self_provision { result.self_provision.value.0 ≡ no_pay_self_provision award.now.day_ahead.value.0 award.now.self_provision.value.0 award.now.real_time.value.0 award.now.disqualified.value.0 not_available.value.0 }
    ensures withheld { Withheld (award.now.day_ahead.value.0 +ℤ award.now.real_time.value.0) award.now.self_provision.value.0 (not_available.value.0 +ℤ award.now.disqualified.value.0) result.award.value.0 result.self_provision.value.0 }
{
    let awarded = award.day_ahead.value + award.real_time.value;
    let lost = not_available.value + award.disqualified.value;
    let not_paid = awarded.min(lost);
    Figures {
        award: UpTo { value: not_paid },
        self_provision: UpTo {
            value: award.self_provision.value.min(lost - not_paid),
        },
    }
}

// What a site was not available for, and what it was disqualified for, is not paid.
pub fn no_pay(award: &Award, availability: &Availability, direction: Direction) -> NoPay
    ensures award { result.figures.award.value.0 ≡ no_pay_award award.now.day_ahead.value.0 award.now.real_time.value.0 award.now.disqualified.value.0 (unavailable award.now.schedule.value.0 (available availability.now) direction) }
    ensures self_provision { result.figures.self_provision.value.0 ≡ no_pay_self_provision award.now.day_ahead.value.0 award.now.self_provision.value.0 award.now.real_time.value.0 award.now.disqualified.value.0 (unavailable award.now.schedule.value.0 (available availability.now) direction) }
    ensures cause { result.cause ≡ governing_cause award.now.schedule.value.0 (available availability.now) direction }
    ensures withheld { Withheld (award.now.day_ahead.value.0 +ℤ award.now.real_time.value.0) award.now.self_provision.value.0 (unavailable award.now.schedule.value.0 (available availability.now) direction +ℤ award.now.disqualified.value.0) result.figures.award.value.0 result.figures.self_provision.value.0 }
    ensures governs { Governs (quantity award.now.schedule.value.0 (available availability.now) direction) causes result.cause }
{
    let unavailability = Unavailability {
        schedule: award.schedule,
        availability: *availability,
        direction,
    };
    NoPay {
        figures: withhold(award, unavailability.greatest(&CAUSES)),
        cause: unavailability.first_greatest(&CAUSES),
    }
}
