// Dates: ddmmyy, year 20yy.
ghost use Rattle.std.specs.Prelude.{◌≡◌, take, drop};
ghost use Rattle.format.specs.Rules.{days_in, is_date};
ghost use Rattle.format.specs.Tests.{date_tests, desired_tests};
ghost use Rattle.format.specs.Answers.{number_in};
ghost use Rattle.field.specs.Leaf.{numeric_read, numeric_answer, numeric_of};

use crate::numbers::digits_at;
use format::Refusal;

pub(crate) fn days_in(month: u64, year: u64) -> u64
    ensures { result ≡ days_in month year }
{
    match month {
        2 => if year % 4 == 0 { 29 } else { 28 },
        4 | 6 | 9 | 11 => 30,
        _ => 31,
    }
}

pub(crate) fn is_date(n: u64) -> bool
    ensures { result ≡ is_date n }
{
    let month = n / 100 % 100;
    let day = n / 10000;
    let last = days_in(month, n % 100);
    (1 <= month) & (month <= 12) & ((1 <= day) & (day <= last))
}

#[tactic(auto, using(crate::proofs::Results::results))]
pub fn date(line: &[u8], at: usize) -> Result<u64, Refusal>
    ensures { numeric_read result ≡ numeric_of date_tests (take 6 (drop at line.now)) }
{
    let date = digits_at(line, at, 6)?;
    if is_date(date) {
        return Ok(date);
    }
    Err(Refusal::WrongValue)
}

// A date that may be zeros.
#[tactic(auto, using(crate::proofs::Results::results))]
pub fn desired_answer(line: &[u8], at: usize) -> Result<(), Refusal>
    ensures { number_in result ≡ numeric_answer desired_tests (take 6 (drop at line.now)) }
{
    let date = digits_at(line, at, 6)?;
    if (date == 0) | is_date(date) {
        return Ok(());
    }
    Err(Refusal::WrongValue)
}
