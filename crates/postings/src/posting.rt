//! What a record posts: each number is kept within the limits of its kind.

ghost use Rattle.std.specs.Prelude.{◌≡◌};

use roster::{MemberIndex, SiteIndex};
use units::{Cents, CentsPerMw, Direction, Hour, Kw, UpTo, Version};

// The kind alone, which is known before a record is read further.
#[derive(Clone, Copy, PartialEq, Eq)]
pub enum Kind {
    Award,
    Mileage,
    Capacity,
    Obligation,
    Bill,
}

// What may be awarded, provided or scheduled of a site in an hour.
pub type SiteKw = UpTo<Kw, 20_000>;

// What a megawatt of mileage may be paid.
pub type MileagePrice = UpTo<CentsPerMw, 10_000>;

// What a megawatt of capacity may be paid.
pub type CapacityPrice = UpTo<CentsPerMw, 100_000>;

// What the pool was awarded for a site.
#[derive(Clone, Copy)]
pub struct Award {
    pub version: Version,
    pub site: SiteIndex,
    pub day_ahead: SiteKw,
    pub self_provision: SiteKw,
    pub real_time: SiteKw,
    pub schedule: SiteKw,
    pub disqualified: SiteKw,
}

// What a megawatt of mileage is paid: day-ahead, and in each quarter of the hour.
#[derive(Clone, Copy)]
pub struct MileagePrices {
    pub version: Version,
    pub day_ahead: MileagePrice,
    pub real_time: [MileagePrice; 4],
}

// What a megawatt of capacity is paid.
#[derive(Clone, Copy)]
pub struct CapacityPrices {
    pub version: Version,
    pub day_ahead: CapacityPrice,
    pub real_time: CapacityPrice,
}

// What a member has to provide.
#[derive(Clone, Copy)]
pub struct Obligation {
    pub version: Version,
    pub member: MemberIndex,
    pub quantity: UpTo<Kw, 999_999>,
}

// A charge is owed by the member, a credit to it.
#[derive(Clone, Copy, PartialEq, Eq)]
pub enum Side {
    Charge,
    Credit,
}

// The number of a bill: it stands where other records have their version, within the same limits.
#[derive(Clone, Copy, PartialEq, Eq)]
pub struct BillNumber(pub Version);

impl From<Version> for BillNumber {
    ghost from_gives = { λ version number. number.0 ≡ version };

    fn from(version: Version) -> BillNumber {
        BillNumber(version)
    }
}

// A bill that the pool passes through to a member.
#[derive(Clone, Copy)]
pub struct Bill {
    pub number: BillNumber,
    pub member: MemberIndex,
    pub side: Side,
    pub amount: UpTo<Cents, 999_999>,
}

// What is posted, by kind, in the types that keep its limits.
#[derive(Clone, Copy)]
pub enum Content {
    Award(Award),
    Mileage(MileagePrices),
    Capacity(CapacityPrices),
    Obligation(Obligation),
    Bill(Bill),
}

#[derive(Clone, Copy)]
pub struct Posting {
    pub direction: Direction,
    pub hour: Hour,
    pub content: Content,
}

// What a record is about: its kind, with the index of the site or the member that it names; of a bill its number too. Plain
// numbers, since the rules name keys that no posting has.
#[derive(Clone, Copy, PartialEq, Eq)]
pub enum Subject {
    Award(u8),
    Mileage,
    Capacity,
    Obligation(u8),
    Bill(u8, u16),
}

// What a posting is held under.
#[derive(Clone, Copy, PartialEq, Eq)]
pub struct Key {
    pub direction: Direction,
    pub hour: u8,
    pub subject: Subject,
}
