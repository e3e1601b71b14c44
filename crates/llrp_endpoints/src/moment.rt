//! A moment as text, on the Gregorian calendar, in UTC (ISO 8601).

ghost use Rattle.std.specs.Prelude.{◌≡◌, ◌+◌, ◌++◌, ◌<◌, ◌≤◌, ◌^◌, List, OnOk, ℕ};
ghost use Rattle.llrp_endpoints.specs.Moments.{IsMomentText, clock_text, date_text, days_in_month, days_in_year, days_of_months, days_of_years, fraction_text, is_leap_year, part_text, two_digits};

use llrp_listing::Text;
use std::alloc::AllocError;

/// How many microseconds a day has.
const DAY: u64 = 86_400_000_000;

/// How many microseconds a second has.
const SECOND: u64 = 1_000_000;

fn is_leap_year(year: u64) -> bool
    ensures { result ≡ is_leap_year year }
{
    year % 4 == 0 && (year % 100 != 0 || year % 400 == 0)
}

#[tactic(auto, unfolding(crate::specs::Moments::days_in_year))]
fn days_in_year(year: u64) -> u64
    ensures days { result ≡ days_in_year year }
    ensures least { 365 ≤ result }
{
    if is_leap_year(year) { 366 } else { 365 }
}

/// How many days February has.
#[tactic(auto, unfolding(crate::specs::Moments::days_in_month))]
fn days_in_february(year: u64) -> u64
    ensures days { result ≡ days_in_month year 2 }
    ensures most { result ≤ 29 }
{
    if is_leap_year(year) { 29 } else { 28 }
}

/// How many days a month has; January is 1.
#[tactic(auto, unfolding(crate::specs::Moments::days_in_month))]
fn days_in_month(year: u64, month: u64) -> u64
    ensures days { result ≡ days_in_month year month }
    ensures most { result ≤ 31 }
{
    if month == 2 {
        days_in_february(year)
    } else if month == 4 || month == 6 || month == 9 || month == 11 {
        30
    } else {
        31
    }
}

/// How many whole years there are in the days after 1970-01-01, and how many days are left.
fn years_in(days: u64) -> (u64, u64)
    requires { days < 2 ^ 32 }
    ensures whole { days ≡ days_of_years result.0 + result.1 }
    ensures rest { result.1 < days_in_year (1970 + result.0) }
    ensures few { result.0 + result.1 ≤ days }
{
    let mut rest = days;
    for years in 0..days + 1 {
        let length = days_in_year(1970 + years);
        if rest < length {
            return (years, rest);
        }
        rest -= length;
    }
    unreachable!()
}

/// How many whole months there are in the days of a year, and how many days are left.
fn months_in(year: u64, days: u64) -> (u64, u64)
    requires { days < days_in_year year }
    ensures whole { days ≡ days_of_months year result.0 + result.1 }
    ensures month { result.0 < 12 }
    ensures rest { result.1 < days_in_month year (result.0 + 1) }
    ensures few { result.1 < 31 }
{
    let mut rest = days;
    for months in 0..12 {
        let length = days_in_month(year, months + 1);
        if rest < length {
            return (months, rest);
        }
        rest -= length;
    }
    unreachable!()
}

/// Appends two digits.
fn push_two(text: &mut Text, number: u64) -> Result<(), AllocError>
    requires { number < 100 }
    ensures { OnOk result (text.new ≡ text.old ++ two_digits number) }
{
    text.push(b'0' + (number / 10) as u8)?;
    text.push(b'0' + (number % 10) as u8)
}

/// Appends a sign and two digits.
fn push_part(text: &mut Text, sign: u8, number: u64) -> Result<(), AllocError>
    requires { number < 100 }
    ensures { OnOk result (text.new ≡ text.old ++ part_text sign number) }
{
    text.push(sign)?;
    push_two(text, number)
}

/// Appends a date, of the whole years after 1970, the whole months after them and the days left.
fn push_date(text: &mut Text, years: u64, months: u64, rest: u64) -> Result<(), AllocError>
    requires year { years < 2 ^ 32 }
    requires month { months < 12 }
    requires day { rest < 31 }
    ensures { OnOk result (text.new ≡ text.old ++ date_text years months rest) }
{
    text.push_number((1970 + years) as u128)?;
    push_part(text, b'-', months + 1)?;
    push_part(text, b'-', rest + 1)
}

/// Appends the hours, minutes and seconds of a day's seconds.
fn push_clock(text: &mut Text, seconds: u64) -> Result<(), AllocError>
    requires { seconds < 86400 }
    ensures { OnOk result (text.new ≡ text.old ++ clock_text seconds) }
{
    push_part(text, b'T', seconds / 3600)?;
    push_part(text, b':', seconds / 60 % 60)?;
    push_part(text, b':', seconds % 60)
}

/// Appends a point and the six digits of a second's microseconds.
fn push_fraction(text: &mut Text, micros: u64) -> Result<(), AllocError>
    requires { micros < 1000000 }
    ensures { OnOk result (text.new ≡ text.old ++ fraction_text micros) }
{
    push_part(text, b'.', micros / 10_000)?;
    push_two(text, micros / 100 % 100)?;
    push_two(text, micros % 100)
}

/// Appends the moment `micros` microseconds after 1970-01-01T00:00:00Z, as
/// `2026-01-31T23:59:59.123456Z`.
pub(crate) fn push_moment(text: &mut Text, micros: u64) -> Result<(), AllocError>
    ensures { OnOk result ((moment : List ℕ) × IsMomentText micros moment
        × (text.new ≡ text.old ++ moment)) }
{
    let (years, days) = years_in(micros / DAY);
    let (months, rest) = months_in(1970 + years, days);
    push_date(text, years, months, rest)?;
    push_clock(text, micros / SECOND % 86_400)?;
    push_fraction(text, micros % SECOND)?;
    text.push(b'Z')
}
