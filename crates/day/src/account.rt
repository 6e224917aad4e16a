//! The pool's own accounts.

ghost use Rattle.std.specs.Prelude.{◌≡◌};
ghost use Rattle.std.specs.Result.{result_ok};
ghost use Rattle.day.specs.Accounts.{account_at};

use units::OutOfRange;

// Rounding: the cents that are left where quantities add up to the divisor. Neutrality: every other left-over.
// Pass-through: all bills, reversed.
#[derive(Clone, Copy)]
pub enum Account {
    Rounding,
    Neutrality,
    PassThrough,
}

// By its number.
impl TryFrom<usize> for Account {
    type Error = OutOfRange;

    ghost try_from_gives = { λ number r. result_ok r ≡ account_at number };

    fn try_from(number: usize) -> Result<Account, OutOfRange> {
        match number {
            0 => Ok(Account::Rounding),
            1 => Ok(Account::Neutrality),
            2 => Ok(Account::PassThrough),
            _ => Err(OutOfRange),
        }
    }
}
