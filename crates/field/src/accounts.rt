// Accounts.
ghost use Rattle.std.specs.Prelude.{◌≡◌, true, ◌≤◌, length, take, drop, eqb};
ghost use Rattle.machine.specs.Lists.{pick, all, is_digit};
ghost use Rattle.format.specs.Rules.{max_account, is_ordering_account, is_seven_digits, is_account, is_seven_if};
ghost use Rattle.format.specs.Answers.{differs, ordinary_account};
ghost use Rattle.format.specs.Tests.{range_tests, ordering_tests, party_tests};
ghost use Rattle.field.specs.Leaf.{TenDigits, wrong_as, right_of, numeric_read, numeric_of};
ghost use Rattle.field.specs.Taught.{is_eleven_taught};

use crate::bytes::part;
use crate::numbers::digits_at;
use format::Refusal;

// The eleven check as it is taught: 'add the digits one after the other, and add each running total into a second one'
// (02). They pass where that divides by 11.
fn is_eleven(s: &[u8]) -> bool
    requires short { length s.now ≤ 10 }
    requires digits { all is_digit s.now ≡ true }
    ensures { result ≡ is_eleven_taught s.now }
{
    let mut running: u64 = 0;
    let mut second: u64 = 0;
    for c in s {
        running += u64::from(*c - b'0');
        second += running;
    }
    second % 11 == 0
}

// The least number of nine digits.
const NINE_DIGITS: u64 = 100_000_000;

// Nine or ten digits that pass the eleven check; v is what they stand for.
fn is_ordering_account(s: &[u8], v: u64) -> bool
    requires { TenDigits s.now v }
    ensures { result ≡ is_ordering_account v }
{
    NINE_DIGITS <= v && is_eleven(s)
}

// One to seven digits; v is not zero.
fn is_seven_digits(v: u64) -> bool
    ensures { result ≡ is_seven_digits v }
{
    v <= 9999999
}

// Nine or ten digits that pass, or at most seven.
fn is_account(s: &[u8], v: u64) -> bool
    requires { TenDigits s.now v }
    ensures { result ≡ is_account v }
{
    if is_ordering_account(s, v) {
        return true;
    }
    is_seven_digits(v)
}

// Ten digits that are not all zero. None are above the largest account, so that is not asked.
#[tactic(auto, using(crate::proofs::Results::results))]
fn account_number(line: &[u8], at: usize) -> Result<u64, Refusal>
    ensures { numeric_read result ≡ numeric_of (range_tests 1 max_account) (take 10 (drop at line.now)) }
{
    let account = digits_at(line, at, 10)?;
    if account == 0 {
        return Err(Refusal::WrongValue);
    }
    Ok(account)
}

// The ordering account of a batch.
#[tactic(auto, using(crate::proofs::Results::results))]
pub fn ordering(line: &[u8], at: usize) -> Result<u64, Refusal>
    ensures { numeric_read result ≡ numeric_of ordering_tests (take 10 (drop at line.now)) }
{
    let account = account_number(line, at)?;
    if is_ordering_account(part(line, at, 10), account) {
        return Ok(account);
    }
    Err(Refusal::WrongAccount)
}

// The own account, which has to be the ordering account.
#[tactic(auto, using(crate::proofs::Picks::picks))]
fn own_party(account: u64, own: u64) -> Result<u64, Refusal>
    ensures { numeric_read result ≡ pick (eqb account own) (right_of account) (wrong_as differs) }
{
    if account == own {
        return Ok(account);
    }
    Err(Refusal::Differs)
}

// The other party's, which has seven digits at most where the type is unchecked.
fn other_party(account: u64, unchecked: bool) -> Result<u64, Refusal>
    ensures { numeric_read result
        ≡ pick (is_seven_if unchecked account) (right_of account) (wrong_as ordinary_account) }
{
    if unchecked & !is_seven_digits(account) {
        return Err(Refusal::OrdinaryAccount);
    }
    Ok(account)
}

// An account of a transaction: the own one, or the other party's.
#[tactic(auto, using(crate::proofs::Results::results))]
pub fn party(line: &[u8], at: usize, mine: bool, own: u64, unchecked: bool) -> Result<u64, Refusal>
    ensures { numeric_read result ≡ numeric_of (party_tests mine own unchecked) (take 10 (drop at line.now)) }
{
    let account = account_number(line, at)?;
    if !is_account(part(line, at, 10), account) {
        return Err(Refusal::WrongAccount);
    }
    if mine {
        return own_party(account, own);
    }
    other_party(account, unchecked)
}
