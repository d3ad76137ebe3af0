//! A clock for where there is none.

use opentelemetry::Moment;
use otel_pipeline::trace::Now;

/// Stands in for a clock that cannot be read, where nothing is traced.
#[derive(Drop)]
pub struct StoppedClock;

impl Now for StoppedClock {
    ghost use Rattle.std.specs.Prelude.{◌≡◌};

    ghost tells = { λ old moment new. (moment ≡ 0) × (new ≡ old) };

    fn now(&mut self) -> Moment {
        Moment(0)
    }
}
