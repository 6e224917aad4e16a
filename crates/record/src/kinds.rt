//! What a record of each kind names and says.

ghost use Rattle.std.specs.Prelude.{◌≡◌, IfOk};
ghost use Rattle.roster.specs.Rosters.{roster_of};
ghost use Rattle.postings.specs.Postings.{terms_of, version_of};
ghost use Rattle.record.specs.Reading.{viewed, name_in, terms_in, version_for};
ghost use Rattle.record.specs.NamedKinds.{kind_of, name_of};

use crate::fields::check_blank;
use crate::numbers::{Absent, Numbers};
use postings::{Award, Bill, BillNumber, CapacityPrices, Content, Kind, MileagePrices, Obligation};
use refusal::Refusal;
use roster::{MemberIndex, Roster, SiteIndex};

// A kind, with the site or the member that a record of it names, in the types that its content has; a kind alone is known before
// its name is read.
#[derive(Clone, Copy)]
pub(crate) enum NamedKind {
    Award(SiteIndex),
    Mileage,
    Capacity,
    Obligation(MemberIndex),
    Bill(MemberIndex),
}

// A kind with whom the name field names: prices are nobody's, and their field is blank.
pub(crate) fn read_named(
    kind: Kind,
    field: &[u8],
    roster: &Roster<'_>,
) -> Result<NamedKind, Refusal>
    ensures value { viewed name_of result ≡ name_in (roster_of roster.now) kind field.now }
    ensures same { IfOk result (λ named. kind_of named ≡ kind) }
{
    check_blank(field, matches!(kind, Kind::Mileage | Kind::Capacity))?;
    let named = match kind {
        Kind::Award => roster.find_site(field).map(NamedKind::Award),
        Kind::Mileage => Some(NamedKind::Mileage),
        Kind::Capacity => Some(NamedKind::Capacity),
        Kind::Obligation => roster.find_member(field).map(NamedKind::Obligation),
        Kind::Bill => roster.find_member(field).map(NamedKind::Bill),
    };
    named.ok_or(Refusal::UnknownName)
}

impl Numbers<'_> {
    fn award(&self, site: SiteIndex) -> Result<Award, Refusal>
        ensures version { IfOk result (λ award. award.version ≡ self.now.serial) }
        ensures terms { viewed (λ award. terms_of (Content.Award award)) result ≡ terms_in Kind.Award site.value self.now.serial.value self.now.digits.now }
    {
        let (day_ahead, self_provision, real_time, schedule, disqualified) = self.read()?;
        Ok(Award {
            version: self.serial,
            site,
            day_ahead,
            self_provision,
            real_time,
            schedule,
            disqualified,
        })
    }

    fn mileage_prices(&self) -> Result<MileagePrices, Refusal>
        ensures version { IfOk result (λ prices. prices.version ≡ self.now.serial) }
        ensures terms { viewed (λ prices. terms_of (Content.Mileage prices)) result ≡ terms_in Kind.Mileage 0 self.now.serial.value self.now.digits.now }
    {
        let (day_ahead, q0, q1, q2, q3) = self.read()?;
        Ok(MileagePrices {
            version: self.serial,
            day_ahead,
            real_time: [q0, q1, q2, q3],
        })
    }

    fn capacity_prices(&self) -> Result<CapacityPrices, Refusal>
        ensures version { IfOk result (λ prices. prices.version ≡ self.now.serial) }
        ensures terms { viewed (λ prices. terms_of (Content.Capacity prices)) result ≡ terms_in Kind.Capacity 0 self.now.serial.value self.now.digits.now }
    {
        let (day_ahead, real_time, Absent, Absent, Absent) = self.read()?;
        Ok(CapacityPrices {
            version: self.serial,
            day_ahead,
            real_time,
        })
    }

    fn obligation(&self, member: MemberIndex) -> Result<Obligation, Refusal>
        ensures version { IfOk result (λ obligation. obligation.version ≡ self.now.serial) }
        ensures terms { viewed (λ obligation. terms_of (Content.Obligation obligation)) result ≡ terms_in Kind.Obligation member.value self.now.serial.value self.now.digits.now }
    {
        let (quantity, Absent, Absent, Absent, Absent) = self.read()?;
        Ok(Obligation {
            version: self.serial,
            member,
            quantity,
        })
    }

    fn bill(&self, member: MemberIndex) -> Result<Bill, Refusal>
        ensures { viewed (λ bill. terms_of (Content.Bill bill)) result ≡ terms_in Kind.Bill member.value self.now.serial.value self.now.digits.now }
    {
        let (amount, side, Absent, Absent, Absent) = self.read()?;
        Ok(Bill {
            number: BillNumber::from(self.serial),
            member,
            side,
            amount,
        })
    }

    pub(crate) fn content(&self, named: NamedKind) -> Result<Content, Refusal>
        ensures version { IfOk result (λ content. version_of content ≡ version_for (kind_of named) self.now.serial.value) }
        ensures terms { viewed terms_of result ≡ terms_in (kind_of named) (name_of named) self.now.serial.value self.now.digits.now }
    {
        Ok(match named {
            NamedKind::Award(site) => Content::Award(self.award(site)?),
            NamedKind::Mileage => Content::Mileage(self.mileage_prices()?),
            NamedKind::Capacity => Content::Capacity(self.capacity_prices()?),
            NamedKind::Obligation(member) => Content::Obligation(self.obligation(member)?),
            NamedKind::Bill(member) => Content::Bill(self.bill(member)?),
        })
    }
}
