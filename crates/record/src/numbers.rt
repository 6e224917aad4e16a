//! The numbers of a record, each read into the type that keeps its limit.

ghost use Rattle.std.specs.Prelude.{◌≡◌, ℕ, ◌<◌, ◌≤◌, ℤ, pos, length, [], ◌∷◌, MatchOption};
ghost use Rattle.record.specs.Reading.{viewed, number_in, numbers_in, side_number};

use crate::fields::read_digits;
use postings::Side;
use refusal::Refusal;
use units::{Quantity, UpTo, Version};

// What one number of a record says: its type has a value for each number from 0 to a limit. A `TryFrom` says no limit, and the
// five limits are read as one list.
pub(crate) trait RecordNumber: Copy {
    ghost limit: { ℕ };

    ghost amount: { Self → ℤ };

    fn from_number(number: u32) -> Option<Self>
        ensures { MatchOption result (limit < number) (λ x. (amount x ≡ pos number) × (number ≤ limit)) };
}

impl<Q: Quantity, const LIMIT: u32> RecordNumber for UpTo<Q, LIMIT> {
    ghost limit = { LIMIT };

    ghost amount = { λ x. Q.amount x.value };

    fn from_number(number: u32) -> Option<UpTo<Q, LIMIT>> {
        UpTo::try_from(i64::from(number)).ok()
    }
}

impl RecordNumber for Side {
    ghost limit = { 1 };

    ghost amount = { λ side. pos (side_number side) };

    fn from_number(number: u32) -> Option<Side> {
        match number {
            0 => Some(Side::Charge),
            1 => Some(Side::Credit),
            _ => None,
        }
    }
}

// A number that a kind does not have: 0. It has a name, so that a pattern says which numbers a kind lacks.
#[derive(Clone, Copy)]
pub(crate) struct Absent;

impl RecordNumber for Absent {
    ghost limit = { 0 };

    ghost amount = { λ _. pos 0 };

    fn from_number(number: u32) -> Option<Absent> {
        if number == 0 { Some(Absent) } else { None }
    }
}

// The version of a record, or the number of a bill, and the digits of its five numbers, six each.
#[derive(Clone, Copy)]
pub(crate) struct Numbers<'a> {
    pub(crate) serial: Version,
    pub(crate) digits: &'a [u8],
    ghost thirty: { length digits.now ≡ 30 },
}

// The number at an index, in six digits.
fn read_number<N: RecordNumber>(index: u8, digits: &[u8]) -> Result<N, Refusal>
    requires { length digits.now ≤ 6 }
    ensures { viewed N.amount result ≡ number_in index N.limit digits.now }
{
    let refusal = Refusal::WrongNumber(index);
    let number = read_digits(digits, refusal)?;
    N::from_number(number).ok_or(refusal)
}

impl Numbers<'_> {
    // The five, in their order.
    pub(crate) fn read<
        A: RecordNumber,
        B: RecordNumber,
        C: RecordNumber,
        D: RecordNumber,
        E: RecordNumber,
    >(&self) -> Result<(A, B, C, D, E), Refusal>
        ensures { viewed (λ n. A.amount n.0 ∷ B.amount n.1 ∷ C.amount n.2 ∷ D.amount n.3 ∷ E.amount n.4 ∷ []) result ≡ numbers_in 0 (A.limit ∷ B.limit ∷ C.limit ∷ D.limit ∷ E.limit ∷ []) self.now.digits.now }
    {
        Ok((
            read_number(0, &self.digits[0..6])?,
            read_number(1, &self.digits[6..12])?,
            read_number(2, &self.digits[12..18])?,
            read_number(3, &self.digits[18..24])?,
            read_number(4, &self.digits[24..30])?,
        ))
    }
}
