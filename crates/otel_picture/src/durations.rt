//! Texts of durations, for people: in the unit that fits, of nanoseconds up to years of 365 days, with at most four
//! significant digits. What has more digits is cut, not rounded: `39.23ms`, `1.665s`, `2m 5s`.

ghost use Rattle.std.specs.Prelude.{◌≡◌, ◌<◌, ◌+◌, ◌*◌, ◌/◌, ◌∷◌, [], OnOk};
ghost use Rattle.opentelemetry.specs.Text.{TextGrows};
ghost use Rattle.otel_picture.specs.Durations.{duration_text, exact_text, fraction_text, in_unit, in_units};
ghost use Rattle.otel_picture.specs.Durations.{shown_duration, step_of};

use std::alloc::AllocError;
use std::fmt::Write;

pub(crate) const SECOND: u64 = 1_000_000_000;

pub(crate) const MINUTE: u64 = 60 * SECOND;

pub(crate) const HOUR: u64 = 60 * MINUTE;

pub(crate) const DAY: u64 = 24 * HOUR;

pub(crate) const YEAR: u64 = 365 * DAY;

/// How many nanoseconds one unit of the last digit is that is shown of a duration.
fn step_of(nanoseconds: u64) -> u64
    ensures is { result ≡ step_of nanoseconds }
    ensures some { 0 < result }
{
    match nanoseconds {
        0..=9_999 => 1,
        10_000..=99_999 => 10,
        100_000..=999_999 => 100,
        1_000_000..=9_999_999 => 1_000,
        10_000_000..=99_999_999 => 10_000,
        100_000_000..=999_999_999 => 100_000,
        1_000_000_000..=9_999_999_999 => 1_000_000,
        10_000_000_000..=59_999_999_999 => 10_000_000,
        60_000_000_000..=3_599_999_999_999 => SECOND,
        3_600_000_000_000..=86_399_999_999_999 => MINUTE,
        86_400_000_000_000..=8_639_999_999_999_999 => HOUR,
        8_640_000_000_000_000..=851_471_999_999_999_999 => DAY,
        _ => YEAR,
    }
}

/// Appends a digit.
pub(crate) fn push_digit(out: &mut String, digit: u64) -> Result<(), AllocError>
    requires { digit < 10 }
    ensures { OnOk result (TextGrows out.old ((48 + digit) ∷ []) out.new) }
{
    out.push(char::from(b'0' + digit as u8))
}

/// Appends thousandths after a point, without the zeros at their end.
fn push_fraction(out: &mut String, thousandths: u64) -> Result<(), AllocError>
    requires { thousandths < 1000 }
    ensures { OnOk result (TextGrows out.old (fraction_text thousandths) out.new) }
{
    if thousandths == 0 {
        return Ok(());
    }
    out.push('.')?;
    push_digit(out, thousandths / 100)?;
    if thousandths % 100 == 0 {
        return Ok(());
    }
    push_digit(out, thousandths / 10 % 10)?;
    if thousandths % 10 == 0 {
        return Ok(());
    }
    push_digit(out, thousandths % 10)
}

/// Appends nanoseconds in a unit of at least a thousand of them, to the thousandth.
fn push_in_unit(out: &mut String, unit: u64, nanoseconds: u64) -> Result<(), AllocError>
    requires { unit ≡ 1000 * (unit / 1000) × (0 < unit) }
    ensures { OnOk result (TextGrows out.old (in_unit unit nanoseconds) out.new) }
{
    let whole = nanoseconds / unit;
    write!(out, "{whole}")?;
    push_fraction(out, nanoseconds % unit / (unit / 1000))
}

/// Appends so many of a unit, and of a smaller one, if there is any.
fn push_in_units(
    out: &mut String,
    count: u64,
    unit: char,
    rest: u64,
    smaller: char,
) -> Result<(), AllocError>
    requires letters { (unit < 128) × (smaller < 128) }
    ensures { OnOk result (TextGrows out.old (in_units count unit rest smaller) out.new) }
{
    write!(out, "{count}{unit}")?;
    if rest == 0 {
        return Ok(());
    }
    write!(out, " {rest}{smaller}")
}

/// Appends nanoseconds of less than a minute.
fn push_seconds(out: &mut String, nanoseconds: u64) -> Result<(), AllocError>
    requires { nanoseconds < 60000000000 }
    ensures { OnOk result (TextGrows out.old (exact_text nanoseconds) out.new) }
{
    match nanoseconds {
        0..=999 => write!(out, "{nanoseconds}ns"),
        1_000..=999_999 => {
            push_in_unit(out, 1_000, nanoseconds)?;
            out.push_str("us")
        }
        1_000_000..=999_999_999 => {
            push_in_unit(out, 1_000_000, nanoseconds)?;
            out.push_str("ms")
        }
        _ => {
            push_in_unit(out, SECOND, nanoseconds)?;
            out.push('s')
        }
    }
}

/// Appends a number of nanoseconds that is shown.
fn push_exact(out: &mut String, nanoseconds: u64) -> Result<(), AllocError>
    ensures { OnOk result (TextGrows out.old (exact_text nanoseconds) out.new) }
{
    match nanoseconds {
        0..=59_999_999_999 => push_seconds(out, nanoseconds),
        60_000_000_000..=3_599_999_999_999 => {
            let seconds = nanoseconds % MINUTE / SECOND;
            push_in_units(out, nanoseconds / MINUTE, 'm', seconds, 's')
        }
        3_600_000_000_000..=86_399_999_999_999 => {
            let minutes = nanoseconds % HOUR / MINUTE;
            push_in_units(out, nanoseconds / HOUR, 'h', minutes, 'm')
        }
        86_400_000_000_000..=851_471_999_999_999_999 => {
            let hours = nanoseconds % DAY / HOUR;
            push_in_units(out, nanoseconds / DAY, 'd', hours, 'h')
        }
        _ => {
            let years = nanoseconds / YEAR;
            write!(out, "{years}y")
        }
    }
}

/// Appends a duration.
pub(crate) fn push_duration(out: &mut String, nanoseconds: u64) -> Result<(), AllocError>
    ensures { OnOk result (TextGrows out.old (duration_text nanoseconds) out.new) }
{
    push_exact(out, nanoseconds - nanoseconds % step_of(nanoseconds))
}
