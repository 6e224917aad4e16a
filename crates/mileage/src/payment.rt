//! The split of a quarter's mileage, and its payment.

ghost use Rattle.std.specs.Prelude.{◌≡◌, ◌≢◌, pos, ◌+ℤ◌, ◌≤ℤ◌};
ghost use Rattle.std.specs.Int.{int_max};
ghost use Rattle.postings.specs.Limits.{price_at};
ghost use Rattle.mileage.specs.Mileage.{day_ahead_schedule, greater_schedule, day_ahead_part, real_time_part, paid};
ghost use Rattle.mileage.specs.Awards.{schedules};

use crate::parts::{MileageParts, MileagePayment, Payment};
use postings::{Award, MileagePrice, MileagePrices};
use units::{Accuracy, AdjustedMileage, Cents, Kw, Quarter, UpTo, floor_div};

const KW_PER_MW: i64 = 1_000;

// What was scheduled day-ahead: the award and the self-provision.
fn day_ahead_schedule(award: &Award) -> Kw
    ensures { result.0 ≡ day_ahead_schedule (schedules award.now) }
{
    award.day_ahead.value + award.self_provision.value
}

// The greater of what was scheduled day-ahead and of the final real-time schedule, which no disqualified quantity lowers.
fn greater_schedule(award: &Award) -> Kw
    ensures { result.0 ≡ greater_schedule (schedules award.now) }
{
    day_ahead_schedule(award).max(award.schedule.value)
}

// The day-ahead part is in proportion to what was scheduled day-ahead, rounded down, and the real-time part is the remainder:
// together the whole mileage, or nothing where nothing was scheduled.
pub fn split(award: &Award, mileage: AdjustedMileage) -> MileageParts
    ensures day_ahead { result.day_ahead.value.0 ≡ day_ahead_part mileage.value.0 (schedules award.now) }
    ensures real_time { result.real_time.value.0 ≡ real_time_part mileage.value.0 (schedules award.now) }
    ensures whole { greater_schedule (schedules award.now) ≢ pos 0 → result.day_ahead.value.0 +ℤ result.real_time.value.0 ≡ mileage.value.0 }
    ensures nothing { greater_schedule (schedules award.now) ≡ pos 0 → (result.day_ahead.value.0 ≡ pos 0) × (result.real_time.value.0 ≡ pos 0) }
{
    let whole = mileage.value;
    let greater = greater_schedule(award);
    let Some(share) = floor_div(whole.0 * day_ahead_schedule(award).0, greater.0) else {
        return MileageParts {
            day_ahead: UpTo { value: Kw(0) },
            real_time: UpTo { value: Kw(0) },
        };
    };
    MileageParts {
        day_ahead: UpTo { value: Kw(share) },
        real_time: UpTo {
            value: whole - Kw(share),
        },
    }
}

// What a part is paid at a price, rounded down by itself.
fn paid(part: AdjustedMileage, price: MileagePrice, accuracy: Accuracy) -> Payment
    ensures { result.value.0 ≡ paid part.value.0 price.value.0 accuracy.value }
{
    let amount = part.value.0 * price.value.0 * accuracy.value;
    Payment {
        value: Cents(floor_div(amount, KW_PER_MW * Accuracy::FULL).unwrap()),
    }
}

// The day-ahead part at the day-ahead price, and the real-time part at the price of the quarter:
// together never more than the undivided mileage would be paid at the higher of the two prices.
pub fn pay(
    award: &Award,
    mileage: AdjustedMileage,
    accuracy: Accuracy,
    prices: &MileagePrices,
    quarter: Quarter,
) -> MileagePayment
    ensures day_ahead { result.day_ahead.value.0 ≡ paid (day_ahead_part mileage.value.0 (schedules award.now)) prices.now.day_ahead.value.0 accuracy.value }
    ensures real_time { result.real_time.value.0 ≡ paid (real_time_part mileage.value.0 (schedules award.now)) (price_at prices.now.real_time quarter.value) accuracy.value }
    ensures together { (result.day_ahead.value.0 +ℤ result.real_time.value.0) ≤ℤ paid mileage.value.0 (int_max prices.now.day_ahead.value.0 (price_at prices.now.real_time quarter.value)) accuracy.value }
{
    let parts = split(award, mileage);
    let real_time_price = prices.real_time[usize::from(quarter.value)];
    MileagePayment {
        day_ahead: paid(parts.day_ahead, prices.day_ahead, accuracy),
        real_time: paid(parts.real_time, real_time_price, accuracy),
    }
}
