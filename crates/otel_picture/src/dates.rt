//! Dates and times of day in UTC, by the Gregorian calendar.

ghost use Rattle.std.specs.Prelude.{◌≡◌, ◌<◌, ◌≤◌, ◌+◌, ◌%◌, ◌∷◌, [], OnOk};
ghost use Rattle.opentelemetry.specs.Text.{TextGrows};
ghost use Rattle.otel_picture.specs.Dates.{
  clock_text,
  date_after,
  date_in_year,
  date_of,
  date_text,
  days_in_month,
  days_in_year,
  is_leap_year,
  moment_text,
  seconds_text,
  three_digits,
  two_digits,
};

use crate::durations::push_digit;
use std::alloc::AllocError;
use std::fmt::Write;

/// A day; its month and itself count from 1.
#[derive(Clone, Copy, Debug, PartialEq, Eq)]
pub(crate) struct Date {
    pub(crate) year: u32,
    pub(crate) month: u32,
    pub(crate) day: u32,
}

const DAY: u64 = 86_400_000_000_000;

/// Whether a year has 29 February.
fn is_leap_year(year: u32) -> bool
    ensures { result ≡ is_leap_year year }
{
    (year % 4 == 0 && year % 100 != 0) || year % 400 == 0
}

fn days_in_year(year: u32) -> u32
    ensures { result ≡ days_in_year year }
{
    if is_leap_year(year) { 366 } else { 365 }
}

fn days_in_month(year: u32, month: u32) -> u32
    ensures { result ≡ days_in_month year month }
{
    match month {
        2 => { if is_leap_year(year) { 29 } else { 28 } }
        4 | 6 | 9 | 11 => 30,
        _ => 31,
    }
}

/// The date so many days after the first of a month, in it or in one of so many after it.
fn date_in_year(later: u32, year: u32, month: u32, days: u32) -> Date
    requires months { month + later ≤ 12 }
    requires days { days < 1000000 }
    ensures { result ≡ date_in_year later year month days }
{
    if later == 0 || days < days_in_month(year, month) {
        return Date {
            year,
            month,
            day: days + 1,
        };
    }
    date_in_year(
        later - 1,
        year,
        month + 1,
        days - days_in_month(year, month),
    )
}

/// The date so many days after the first of a year, in it or in one of so many after it.
fn date_after(later: u32, year: u32, days: u32) -> Date
    requires years { year + later ≤ 3000 }
    requires days { days < 1000000 }
    ensures { result ≡ date_after later year days }
{
    if later == 0 || days < days_in_year(year) {
        return date_in_year(11, year, 1, days);
    }
    date_after(later - 1, year + 1, days - days_in_year(year))
}

/// The date so many days after 1970-01-01.
#[tactic(auto, unfolding(crate::specs::Dates::date_of))]
fn date_of(days: u32) -> Date
    requires { days < 1000000 }
    ensures { result ≡ date_of days }
{
    date_after(600, 1970, days)
}

/// Appends the last digit of a number.
fn push_last_digit(out: &mut String, number: u64) -> Result<(), AllocError>
    ensures { OnOk result (TextGrows out.old ((48 + number % 10) ∷ []) out.new) }
{
    push_digit(out, number % 10)
}

/// Appends the last two digits of a number.
#[tactic(auto, unfolding(crate::specs::Dates::two_digits))]
fn push_two_digits(out: &mut String, number: u64) -> Result<(), AllocError>
    ensures { OnOk result (TextGrows out.old (two_digits number) out.new) }
{
    push_last_digit(out, number / 10)?;
    push_last_digit(out, number)
}

/// Appends the last three digits of a number.
#[tactic(auto, unfolding(crate::specs::Dates::three_digits))]
fn push_three_digits(out: &mut String, number: u64) -> Result<(), AllocError>
    ensures { OnOk result (TextGrows out.old (three_digits number) out.new) }
{
    push_last_digit(out, number / 100)?;
    push_two_digits(out, number)
}

#[tactic(auto, unfolding(crate::specs::Dates::date_text))]
fn push_date(out: &mut String, date: Date) -> Result<(), AllocError>
    ensures { OnOk result (TextGrows out.old (date_text date) out.new) }
{
    let year = date.year;
    write!(out, "{year}-")?;
    push_two_digits(out, u64::from(date.month))?;
    out.push('-')?;
    push_two_digits(out, u64::from(date.day))
}

/// Appends the seconds of a time of day, with three digits after the point.
#[tactic(auto, unfolding(crate::specs::Dates::seconds_text))]
fn push_seconds(out: &mut String, milliseconds: u64) -> Result<(), AllocError>
    ensures { OnOk result (TextGrows out.old (seconds_text milliseconds) out.new) }
{
    push_two_digits(out, milliseconds / 1_000 % 60)?;
    out.push('.')?;
    push_three_digits(out, milliseconds)
}

/// Appends the time of day after so many milliseconds.
#[tactic(auto, unfolding(crate::specs::Dates::clock_text))]
fn push_clock(out: &mut String, milliseconds: u64) -> Result<(), AllocError>
    ensures { OnOk result (TextGrows out.old (clock_text milliseconds) out.new) }
{
    push_two_digits(out, milliseconds / 3_600_000 % 24)?;
    out.push(':')?;
    push_two_digits(out, milliseconds / 60_000 % 60)?;
    out.push(':')?;
    push_seconds(out, milliseconds)
}

/// Appends the date and the time of a moment, which is in nanoseconds since 1970.
#[tactic(auto, unfolding(crate::specs::Dates::moment_text))]
pub(crate) fn push_moment(out: &mut String, nanoseconds: u64) -> Result<(), AllocError>
    ensures { OnOk result (TextGrows out.old (moment_text nanoseconds) out.new) }
{
    push_date(out, date_of((nanoseconds / DAY) as u32))?;
    out.push(' ')?;
    push_clock(out, nanoseconds / 1_000_000)?;
    out.push_str(" UTC")
}
