//! Moments from the system's clocks. The wall clock says which moment is now, and may be set back; the monotonic clock
//! says how much time went by, and from when it counts nobody knows.

ghost use Rattle.std.specs.Prelude.{◌≡◌, Result};
ghost use Rattle.std.specs.Duration.{as_nanos};
ghost use Rattle.std.specs.declared.io.Error.{Error};
ghost use Rattle.std.specs.declared.time.Duration.{Duration as TheDuration};
ghost use Rattle.otel_host.specs.Clocks.{IsLater, MakesClock, ReadsAs, clock_fault};

use opentelemetry::Moment;
use otel_pipeline::trace::Now;
use std::io;
use std::io::ErrorKind;
use std::marker::Model;
use std::time::{Clock, Duration};
use thiserror::Error;

/// Why the system's clock says no moment.
#[derive(Clone, Copy, Debug, PartialEq, Eq, Error)]
pub enum ClockError {
    /// The clock cannot be read. Holds what the system says of it.
    #[error("the clock cannot be read: {0}")]
    Unreadable(ErrorKind),
    /// The clock is set before 1970.
    #[error("the clock is before 1970")]
    Before1970,
    /// The clock is set past what 64 bits of nanoseconds since 1970 hold: in the year 2554 or later.
    #[error("the clock is past the last moment")]
    PastLastMoment,
}

/// The moment that is now, by the system's wall clock: nanoseconds since the beginning of 1970, UTC. An error where the
/// clock cannot be read, is before 1970, or is in the year 2554 or later.
pub fn now(rt: &impl Clock) -> Result<Moment, ClockError> {
    moment_of(rt.since_1970())
}

/// The moment that a reading of the wall clock says.
fn moment_of(reading: io::Result<Duration>) -> Result<Moment, ClockError>
    ensures { ReadsAs reading result }
{
    match reading {
        Ok(since_1970) => Moment::from_duration(since_1970).ok_or(ClockError::PastLastMoment),
        Err(error) => Err(fault_of(error.kind())),
    }
}

/// What is wrong with a clock that answers an error of this kind. Of a time before 1970 the library says that the data
/// are invalid.
fn fault_of(kind: ErrorKind) -> ClockError
    ensures { result ≡ clock_fault kind }
{
    match kind {
        ErrorKind::InvalidData => ClockError::Before1970,
        other => ClockError::Unreadable(other),
    }
}

/// The system's two clocks, as contracts see them: each reading is one of its own, so that a moment that nobody read is
/// not proved. The system's answers themselves no clause can say.
pub trait ReadsClocks {
    ghost use Rattle.std.specs.Prelude.{Result};
    ghost use Rattle.std.specs.declared.io.Error.{Error};
    ghost use Rattle.std.specs.declared.time.Duration.{Duration};

    /// A reading of the wall clock: the clocks before it, what it says, the clocks after it.
    ghost wall: { Self → Result Duration Error → Self → Type 0 };

    /// A reading of the monotonic clock.
    ghost monotonic: { Self → Result Duration Error → Self → Type 0 };

    /// The time since the beginning of 1970, UTC.
    fn read_wall(&mut self) -> io::Result<Duration>
        ensures { wall self.old result self.new };

    /// The time since a moment that nobody knows.
    fn read_monotonic(&mut self) -> io::Result<Duration>
        ensures { monotonic self.old result self.new };
}

impl<C: Clock> ReadsClocks for C {
    ghost wall = { λ _ _ _. Unit {0} };

    ghost monotonic = { λ _ _ _. Unit {0} };

    fn read_wall(&mut self) -> io::Result<Duration> {
        self.since_1970()
    }

    fn read_monotonic(&mut self) -> io::Result<Duration> {
        self.monotonic()
    }
}

/// A clock that is read without errors, and does not go back when the wall clock is set. It reads the wall clock once,
/// when it is made, and the monotonic clock at each call: so moments of one such clock keep the distances that the
/// monotonic clock has.
#[derive(Drop)]
pub struct HostClock<C> {
    clock: C,
    made: Moment,
    // What the monotonic clock said then.
    started: Duration,
    // The moment that was told last, and at first that of the making.
    last: Moment,
}

impl<C> Model for HostClock<C> {
    ghost use Rattle.std.specs.Duration.{as_nanos};
    ghost use Rattle.otel_host.specs.Clocks.{PlainHostClock};

    ghost Value = { PlainHostClock C };

    ghost view = { λ clock. record {
      clock = clock.clock;
      made = clock.made.0;
      started = as_nanos clock.started;
      last = clock.last.0;
    } };
}

impl<C: ReadsClocks + Drop> HostClock<C> {
    /// A clock that starts now. The runtime is handed in by reference: `HostClock::new(&rt)`. Errors are those of
    /// [`now`], and `Unreadable` where the monotonic clock cannot be read.
    pub fn new(mut clock: C) -> Result<HostClock<C>, ClockError>
        ensures { MakesClock C.wall C.monotonic clock result }
    {
        let made = moment_of(clock.read_wall())?;
        match clock.read_monotonic() {
            Ok(started) => Ok(HostClock {
                clock,
                made,
                started,
                last: made,
            }),
            Err(error) => Err(ClockError::Unreadable(error.kind())),
        }
    }
}

impl<C: Copy> HostClock<C> {
    /// Another clock that tells the same time, for a second provider of a program.
    pub fn twin(&self) -> HostClock<C>
        ensures { result ≡ self.now }
    {
        HostClock {
            clock: self.clock,
            made: self.made,
            started: self.started,
            last: self.last,
        }
    }
}

impl<C: ReadsClocks + Drop> Now for HostClock<C> {
    ghost use Rattle.otel_host.specs.Clocks.{TellsLater};

    ghost tells = { TellsLater C.monotonic };

    /// The moment that is now: that of the clock's making and the monotonic time since. Where the monotonic clock
    /// cannot be read or went back, or 64 bits of nanoseconds do not hold that moment, it is the moment that was told
    /// last. Never earlier than that.
    fn now(&mut self) -> Moment {
        let reading = self.clock.read_monotonic();
        self.last = moment_after(self.made, self.started, reading, self.last);
        self.last
    }
}

/// The moment at which the monotonic clock says this, where it said `started` when the clock was made; no earlier than
/// the last one.
fn moment_after(
    made: Moment,
    started: Duration,
    reading: io::Result<Duration>,
    last: Moment,
) -> Moment
    ensures { IsLater made.0 (as_nanos started) reading last.0 result.0 }
{
    match reading {
        Ok(reading) => {
            let passed = reading.saturating_sub(started);
            made.checked_add(passed).unwrap_or(last).max(last)
        }
        Err(_) => last,
    }
}
