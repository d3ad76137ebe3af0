//! How the calls of the SDK fail: one error for exporters, processors and providers. A caller that handles it tells
//! a second shutdown, a time-out, a refusal for memory and everything else apart.

ghost use Rattle.std.specs.Prelude.{◌≡◌, ◌+◌, ◌<◌, ◌^◌, [], ◌∷◌, ◌++◌};
ghost use Rattle.std.specs.Fmt.{WritesOnOk, decimal};
ghost use Rattle.otel_export.specs.ErrorText as printed;

use std::error::Error;
use std::time::Duration;
use std::{fmt, io};

/// Why a call of an exporter, a processor or a provider failed.
#[derive(Debug, Drop, PartialEq, Eq)]
pub enum OTelSdkError {
    /// Shutdown was asked for before.
    AlreadyShutdown,
    /// The call took longer than this.
    Timeout(Duration),
    /// Anything else, with its reason, which is for logs alone.
    InternalFailure(String),
    /// There was no memory.
    OutOfMemory,
}

/// What such a call answers.
pub type OTelSdkResult = Result<(), OTelSdkError>;

/// The error of an exporter, which names the exporter that failed.
pub trait ExportError: Error {
    ghost use Rattle.std.specs.Prelude.{ℕ, List};

    // The names that it may give. One that promises nothing may leave this out.
    ghost names: { Self → List ℕ → Type 0 } = { λ _ _. Unit {0} };

    /// The exporter's name.
    fn exporter_name(&self) -> &'static str
        ensures { names self.now result.now };
}

impl Error for OTelSdkError {}

/// So that `?` takes it to a caller that answers errors of streams. The message is what it prints, but for how long
/// a call took; of a reason as many bytes as `io::Error` holds.
impl From<OTelSdkError> for io::Error {
    ghost use Rattle.std.specs.Prelude.{◌≡◌};
    ghost use Rattle.std.specs.IoError.{error_kind};
    ghost use Rattle.otel_export.specs.ErrorText.{kind_of};

    ghost from_gives = { λ error out. error_kind out ≡ kind_of error };

    fn from(error: OTelSdkError) -> io::Error {
        match error {
            OTelSdkError::AlreadyShutdown => {
                io::Error::new(io::ErrorKind::NotConnected, "Shutdown already invoked")
            }
            OTelSdkError::Timeout(_) => {
                io::Error::new(io::ErrorKind::TimedOut, "Operation timed out")
            }
            OTelSdkError::InternalFailure(reason) => io::Error::other(reason.as_str()),
            OTelSdkError::OutOfMemory => io::Error::from(io::ErrorKind::OutOfMemory),
        }
    }
}

impl fmt::Display for OTelSdkError {
    ghost use Rattle.std.specs.Prelude.{Some};
    ghost use Rattle.otel_export.specs.ErrorText.{error_text};

    ghost output = { λ e. Some (error_text e) };

    fn fmt<W: fmt::Write>(&self, f: &mut fmt::Formatter<W>) -> fmt::Result {
        match self {
            OTelSdkError::AlreadyShutdown => f.write_str("Shutdown already invoked"),
            OTelSdkError::Timeout(duration) => {
                f.write_str("Operation timed out after ")?;
                write_duration(f, *duration)
            }
            OTelSdkError::InternalFailure(reason) => {
                f.write_str("Operation failed: ")?;
                f.write_str(reason.as_str())
            }
            OTelSdkError::OutOfMemory => f.write_str("Operation found no memory"),
        }
    }
}

/// What a duration is counted in when it is printed.
#[derive(Clone, Copy)]
enum DurationUnit {
    Seconds,
    Milliseconds,
    Microseconds,
    Nanoseconds,
}

impl DurationUnit {
    fn symbol(self) -> &'static str
        ensures { result.now ≡ printed.symbol self }
    {
        match self {
            DurationUnit::Seconds => "s",
            DurationUnit::Milliseconds => "ms",
            DurationUnit::Microseconds => "µs",
            DurationUnit::Nanoseconds => "ns",
        }
    }

    fn nanos(self) -> u32
        ensures { result ≡ 10 ^ printed.places self }
    {
        match self {
            DurationUnit::Seconds => 1_000_000_000,
            DurationUnit::Milliseconds => 1_000_000,
            DurationUnit::Microseconds => 1_000,
            DurationUnit::Nanoseconds => 1,
        }
    }
}

/// Writes the duration in the largest unit of which it holds a whole one, as `Debug` of `Duration` does.
fn write_duration<W: fmt::Write>(f: &mut fmt::Formatter<W>, duration: Duration) -> fmt::Result
    ensures { WritesOnOk W.write_str_gives f.old result (printed.duration_text duration) f.new }
{
    let seconds = duration.as_secs();
    let nanos = duration.subsec_nanos();
    if seconds > 0 {
        write_in_unit(f, seconds, nanos, DurationUnit::Seconds)
    } else if nanos >= 1_000_000 {
        let whole = u64::from(nanos / 1_000_000);
        write_in_unit(f, whole, nanos % 1_000_000, DurationUnit::Milliseconds)
    } else if nanos >= 1_000 {
        let whole = u64::from(nanos / 1_000);
        write_in_unit(f, whole, nanos % 1_000, DurationUnit::Microseconds)
    } else {
        write_in_unit(f, u64::from(nanos), 0, DurationUnit::Nanoseconds)
    }
}

fn write_in_unit<W: fmt::Write>(
    f: &mut fmt::Formatter<W>,
    whole: u64,
    remainder: u32,
    unit: DurationUnit,
) -> fmt::Result
    requires { remainder < 10 ^ printed.places unit }
    ensures { WritesOnOk W.write_str_gives f.old result
        (decimal whole ++ (printed.fraction_text (printed.places unit) remainder ++ printed.symbol unit)) f.new }
{
    write!(f, "{whole}")?;
    write_fraction(f, remainder, unit)?;
    f.write_str(unit.symbol())
}

/// Writes digit after digit until nothing remains, so that no zero stands at the end.
fn write_fraction<W: fmt::Write>(
    f: &mut fmt::Formatter<W>,
    remainder: u32,
    unit: DurationUnit,
) -> fmt::Result
    requires { remainder < 10 ^ printed.places unit }
    ensures { WritesOnOk W.write_str_gives f.old result (printed.fraction_text (printed.places unit) remainder) f.new }
{
    if remainder == 0 {
        return Ok(());
    }
    f.write_str(".")?;
    let mut left = remainder;
    let mut place = unit.nanos();
    'digits: while left > 0 {
        place /= 10;
        write_digit(f, left / place)?;
        left %= place;
    }
    Ok(())
}

fn write_digit<W: fmt::Write>(f: &mut fmt::Formatter<W>, digit: u32) -> fmt::Result
    requires { digit < 10 }
    ensures { WritesOnOk W.write_str_gives f.old result ((48 + digit) ∷ []) f.new }
{
    f.write_char(char::from(b'0' + digit as u8))
}
