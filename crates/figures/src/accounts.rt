// The account check, an open job, and its answer as numbers.
ghost use Rattle.std.specs.Prelude.{◌≡◌, Err};
ghost use Rattle.figures.specs.Accounts.{account_number, number_answer, Judges};

use crate::parts;
use crate::parts::{Halves, Number};

// Why an account is not judged: its parts are no 0 to 6 and 1 to 10 digits.
#[derive(Clone, Copy, Debug, PartialEq, Eq)]
pub enum AccountError {
    NotDigits,
}

// Whether each half of an account is good. Any bytes may be given.
pub fn check(prefix: &[u8], number: &[u8]) -> Result<Halves, AccountError>
    ensures { Judges prefix.now number.now result }
{
    if number.is_empty() {
        return Err(AccountError::NotDigits);
    }
    let a = parts::part_of(prefix, 6).ok_or(AccountError::NotDigits)?;
    let b = parts::part_of(number, 10).ok_or(AccountError::NotDigits)?;
    Ok(Halves {
        prefix: a.passes,
        number: parts::number_by(!b.some, b.passes),
    })
}

// Document 01's number of a refusal.
impl From<AccountError> for u32 {
    ghost from_gives = { λ e n. n ≡ account_number (Err e) };

    fn from(e: AccountError) -> u32 {
        match e {
            AccountError::NotDigits => 10,
        }
    }
}

// Document 01's answer for a number.
impl From<Number> for u32 {
    ghost from_gives = { λ number n. n ≡ number_answer number };

    fn from(number: Number) -> u32 {
        match number {
            Number::Good => 0,
            Number::Failing => 1,
            Number::Zero => 2,
        }
    }
}
