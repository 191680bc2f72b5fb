// Numeric fields.
ghost use Rattle.std.specs.Prelude.{◌≡◌, true, ◌≤◌, length, take, drop};
ghost use Rattle.machine.specs.Lists.{all, is_digit};
ghost use Rattle.machine.specs.Digits.{decimal, value_of};
ghost use Rattle.format.specs.Tests.{range_tests, total_tests, equal_tests};
ghost use Rattle.format.specs.Answers.{number_in};
ghost use Rattle.field.specs.Leaf.{digits_for, tested_by, no_tests, numeric_read, numeric_answer, numeric_of};

use crate::bytes::{is_digits, part};
use format::Refusal;

fn value(s: &[u8]) -> u64
    requires short { length s.now ≤ 18 }
    requires digits { all is_digit s.now ≡ true }
    ensures { result ≡ value_of s.now }
{
    let mut v = 0;
    for c in s {
        v = v * 10 + u64::from(*c - b'0');
    }
    v
}

// A number in the twenty digits that every number fits.
pub fn spelt(n: u64) -> [u8; 20]
    ensures { result ≡ decimal 20 n }
{
    let mut digits = [b'0'; 20];
    let mut rest = n;
    for i in (0..20).rev() {
        digits[i] = b'0' + (rest % 10) as u8;
        rest /= 10;
    }
    digits
}

// What digits stand for, of which there are at most 18.
#[tactic(auto, using(crate::proofs::Results::digits))]
pub(crate) fn digits_in(s: &[u8]) -> Result<u64, Refusal>
    ensures { numeric_read result ≡ numeric_of no_tests s.now }
{
    if (s.len() <= 18) && is_digits(s) {
        return Ok(value(s));
    }
    Err(Refusal::WrongForm)
}

pub fn digits_at(line: &[u8], at: usize, width: usize) -> Result<u64, Refusal>
    ensures { numeric_read result ≡ numeric_of no_tests (take width (drop at line.now)) }
{
    digits_in(part(line, at, width))
}

// A number from low to high.
pub fn in_range(value: u64, low: u64, high: u64) -> Result<u64, Refusal>
    ensures { numeric_read result ≡ tested_by (range_tests low high) (digits_for value) }
{
    if (low <= value) & (value <= high) {
        return Ok(value);
    }
    Err(Refusal::WrongValue)
}

// A field of digits that stand for a number from low to high.
#[tactic(auto, using(crate::proofs::Results::results))]
pub fn ranged(line: &[u8], at: usize, width: usize, low: u64, high: u64) -> Result<u64, Refusal>
    ensures { numeric_read result ≡ numeric_of (range_tests low high) (take width (drop at line.now)) }
{
    let value = digits_at(line, at, width)?;
    in_range(value, low, high)
}

// A trailer's number: from low to high, and the right one.
#[tactic(auto, using(crate::proofs::Results::results))]
pub fn total_answer(
    line: &[u8],
    at: usize,
    width: usize,
    low: u64,
    high: u64,
    right: u64,
) -> Result<(), Refusal>
    ensures { number_in result ≡ numeric_answer (total_tests low high right) (take width (drop at line.now)) }
{
    let total = ranged(line, at, width, low, high)?;
    if total == right {
        return Ok(());
    }
    Err(Refusal::WrongTrailer)
}

// The same for a number that may be zero.
#[tactic(auto, using(crate::proofs::Results::results))]
pub fn equal_answer(line: &[u8], at: usize, width: usize, right: u64) -> Result<(), Refusal>
    ensures { number_in result ≡ numeric_answer (equal_tests right) (take width (drop at line.now)) }
{
    let total = digits_at(line, at, width)?;
    if total == right {
        return Ok(());
    }
    Err(Refusal::WrongTrailer)
}
