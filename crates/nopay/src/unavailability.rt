//! What a site was not available for in a quarter, and the cause that counts.

ghost use Rattle.std.specs.Prelude.{◌≡◌, int_le};
ghost use Rattle.std.specs.List.{find};
ghost use Rattle.watch.specs.Assessed.{available, room_of};
ghost use Rattle.nopay.specs.NoPay.{room, beyond_room, quantity, greatest, first_greatest};

use crate::cause::Cause;
use postings::SiteKw;
use units::{Direction, Kw, UpTo};
use watch::{Availability, Room};

// The causes in order: of those with equal quantities the first counts.
pub(crate) const CAUSES: [Cause; 5] = [
    Cause::Outage,
    Cause::OffControl,
    Cause::Link,
    Cause::Constrained,
    Cause::OutOfRange,
];

// What a site was not available for: at most its schedule.
pub(crate) type Unavailable = SiteKw;

const NOTHING: Unavailable = UpTo { value: Kw(0) };

// What was scheduled in a direction, and how the site was available.
#[derive(Clone, Copy)]
pub(crate) struct Unavailability {
    pub schedule: SiteKw,
    pub availability: Availability,
    pub direction: Direction,
}

impl Unavailability {
    fn room(self) -> Option<Room>
        ensures { room_of result ≡ room (available self.availability) self.direction }
    {
        match self.direction {
            Direction::Up => self.availability.room_up,
            Direction::Down => self.availability.room_down,
        }
    }

    // What the schedule has beyond the room to move; nothing where the site is exempt.
    fn beyond_room(self) -> Unavailable
        ensures { result.value.0 ≡ beyond_room self.schedule.value.0 (room (available self.availability) self.direction) }
    {
        match self.room() {
            Some(room) => UpTo {
                value: Kw(0).max(self.schedule.value - room.value),
            },
            None => NOTHING,
        }
    }

    // By one cause: the whole schedule or nothing, as a condition says, but where the site was constrained.
    fn quantity(self, cause: Cause) -> Unavailable
        ensures { result.value.0 ≡ quantity self.schedule.value.0 (available self.availability) self.direction cause }
    {
        let is_unavailable = match cause {
            Cause::Outage => self.availability.outage,
            Cause::OffControl => self.availability.off_control,
            Cause::Link => self.availability.link_down,
            Cause::Constrained => return self.beyond_room(),
            Cause::OutOfRange => self.availability.tripped,
        };
        if is_unavailable {
            self.schedule
        } else {
            NOTHING
        }
    }

    // The greatest of the causes' quantities.
    pub(crate) fn greatest(self, causes: &[Cause]) -> Unavailable
        ensures { result.value.0 ≡ greatest (quantity self.schedule.value.0 (available self.availability) self.direction) causes.now }
    {
        let mut greatest = NOTHING;
        // A loop keeps the limit of the greatest so far; after a `fold` neither the limit nor the result was proved.
        for cause in causes {
            greatest = UpTo {
                value: greatest.value.max(self.quantity(*cause).value),
            };
        }
        greatest
    }

    // Whether the quantity by a cause is not below an amount.
    fn reaches(self, amount: Kw, cause: Cause) -> bool
        ensures { result ≡ int_le amount.0 (quantity self.schedule.value.0 (available self.availability) self.direction cause) }
    {
        amount <= self.quantity(cause).value
    }

    // The first of the causes whose quantity is not below an amount.
    fn first_reaching(self, amount: Kw, causes: &[Cause]) -> Option<Cause>
        ensures { result ≡ find (λ c. int_le amount.0 (quantity self.schedule.value.0 (available self.availability) self.direction c)) causes.now }
    {
        causes
            .iter()
            .find(|cause| self.reaches(amount, **cause))
            .copied()
    }

    // The first of the causes with the greatest quantity; none where the site was available for all.
    #[tactic(auto, using(crate::proofs::Greatest::first))]
    pub(crate) fn first_greatest(self, causes: &[Cause]) -> Option<Cause>
        ensures { result ≡ first_greatest (quantity self.schedule.value.0 (available self.availability) self.direction) causes.now }
    {
        let greatest = self.greatest(causes).value;
        if greatest <= Kw(0) {
            return None;
        }
        self.first_reaching(greatest, causes)
    }
}
