//! A moment: when a span starts or ends, or an event happens. The caller reads the clock.

ghost use Rattle.std.specs.Prelude.{◌≡◌, ◌+◌, ◌≤◌, ◌^◌, MatchOption};
ghost use Rattle.std.specs.Duration.{as_nanos};

use std::time::Duration;

/// Nanoseconds since the beginning of 1970, UTC.
#[derive(Clone, Copy, Debug, PartialEq, Eq, PartialOrd, Ord, Hash)]
pub struct Moment(pub u64);

impl Moment {
    /// The moment this long after the beginning of 1970, UTC. None where a `u64` does not hold its nanoseconds: from the
    /// year 2554 on.
    pub fn from_duration(since_1970: Duration) -> Option<Moment>
        ensures { MatchOption result (2 ^ 64 ≤ as_nanos since_1970) (λ moment. moment.0 ≡ as_nanos since_1970) }
    {
        let nanoseconds = u64::try_from(since_1970.as_nanos()).ok()?;
        Some(Moment(nanoseconds))
    }

    /// The moment this long after it. None where a `u64` does not hold its nanoseconds.
    pub fn checked_add(self, duration: Duration) -> Option<Moment>
        ensures { MatchOption result (2 ^ 64 ≤ self.0 + as_nanos duration)
            (λ later. later.0 ≡ self.0 + as_nanos duration) }
    {
        let later = Duration::from_nanos(self.0).checked_add(duration)?;
        Moment::from_duration(later)
    }
}
