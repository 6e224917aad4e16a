//! Why a site was not available.

ghost use Rattle.std.specs.Prelude.{◌≡◌, Some};
ghost use Rattle.nopay.specs.NoPay.{cause_number};

// The operator loads parts by its number, which a definition sets, with 0 for no cause.
#[derive(Clone, Copy, PartialEq, Eq)]
pub enum Cause {
    Outage,
    OffControl,
    Link,
    Constrained,
    OutOfRange,
}

impl Cause {
    pub fn number(self) -> u8
        ensures { result ≡ cause_number (Some self) }
    {
        match self {
            Cause::Outage => 1,
            Cause::OffControl => 2,
            Cause::Link => 3,
            Cause::Constrained => 4,
            Cause::OutOfRange => 5,
        }
    }

    // The number of a cause, or of none.
    pub fn number_of(cause: Option<Cause>) -> u8
        ensures { result ≡ cause_number cause }
    {
        cause.map_or(0, Cause::number)
    }
}
