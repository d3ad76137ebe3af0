//! What tells the time. The library reads no clock: where it starts and ends spans by itself, it asks one that its
//! caller hands in.

use opentelemetry::Moment;

/// A clock, or what stands for one. Its readings are in order: each finds the clock as the one before left it.
pub trait Now {
    ghost use Rattle.std.specs.Prelude.{ℕ};

    /// What a reading does: the clock before it, the moment that it tells, in nanoseconds since the beginning of 1970,
    /// UTC, and the clock after it.
    ghost tells: { Self → ℕ → Self → Type 0 };

    /// The moment that is now. It should not come before an earlier reading's.
    fn now(&mut self) -> Moment
        ensures { tells self.old result.0 self.new };
}
