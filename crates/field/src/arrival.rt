// A desired date by the arrival date: days are counted by the calendar, from 1 January 2000.
ghost use Rattle.std.specs.Prelude.{◌≡◌, true, ◌≤◌, ◌-◌, pos};
ghost use Rattle.format.specs.Rules.{is_date};
ghost use Rattle.format.specs.Arrival.{days_of_months, day_number, days_ahead, is_near, is_timely, is_possible, arrival_tests};
ghost use Rattle.format.specs.Answers.{number_in};
ghost use Rattle.field.specs.Rows.{first_answer};

use crate::dates::{days_in, is_date};
use format::Refusal;

pub const UNTIMELY_DATE: u8 = 21;

// The days of the months before this one.
fn days_before(month: u64, year: u64) -> u64
    requires from { 1 ≤ month }
    requires to { month ≤ 12 }
    ensures { result ≡ days_of_months year (month - 1) }
{
    let mut sum = 0;
    for earlier in 1..month {
        sum += days_in(earlier, year);
    }
    sum
}

// Of the years before, every fourth from 2000 on was a leap year.
fn day_number(date: u64) -> i32
    requires { is_date date ≡ true }
    ensures { result ≡ pos (day_number date) }
{
    let day = date / 10000;
    let month = date / 100 % 100;
    let year = date % 100;
    let months = days_before(month, year);
    let years = year * 365 + (year + 3) / 4;
    let number = years + months + (day - 1);
    number as i32
}

// From the arrival to the desired date: negative for a date gone by.
fn days_ahead(arrival: u64, desired: u64) -> i32
    requires arrival { is_date arrival ≡ true }
    requires desired { is_date desired ≡ true }
    ensures { result ≡ days_ahead arrival desired }
{
    let to = day_number(desired);
    let from = day_number(arrival);
    to - from
}

fn is_near(days: i32) -> bool
    ensures { result ≡ is_near days }
{
    if 0 <= days {
        return days <= 30;
    }
    false
}

fn is_timely(arrival: u64, desired: u64) -> bool
    requires { is_date desired ≡ true }
    ensures { result ≡ is_timely arrival desired }
{
    if is_date(arrival) {
        return is_near(days_ahead(arrival, desired));
    }
    false
}

// What a desired date that exists is answered.
pub(crate) fn arrival_answer(arrival: Option<u64>, desired: u64) -> Result<(), Refusal>
    requires { is_date desired ≡ true }
    ensures { number_in result ≡ first_answer (arrival_tests arrival desired) }
{
    match arrival {
        None => Ok(()),
        Some(date) => if is_timely(date, desired) {
            Ok(())
        } else {
            Err(Refusal::UntimelyDate)
        },
    }
}

// Whether a file may arrive so: without a date, or on one that exists.
pub fn is_possible(arrival: Option<u64>) -> bool
    ensures { result ≡ is_possible arrival }
{
    match arrival {
        None => true,
        Some(date) => is_date(date),
    }
}
