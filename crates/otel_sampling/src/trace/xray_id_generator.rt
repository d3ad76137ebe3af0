//! Trace ids for AWS X-Ray, whose backend takes a trace only where its id begins with the second in which the trace
//! began.

ghost use Rattle.std.specs.Prelude.{◌≡◌};
ghost use Rattle.otel_sampling.specs.XrayIds.{xray_seconds, xray_trace_id};
ghost use Rattle.rand_xoshiro.specs.SplitMix64.{splitmix_seed};
ghost use Rattle.rand_xoshiro.specs.Xoshiro256.{of_seed};

use crate::trace::{GivesIds, RandomIdGenerator};
use opentelemetry::{Moment, SpanId, TraceId};
use std::marker::Model;

/// Draws ids as the generator of the SDK does under the same seed, and puts the seconds since 1970 at which the span
/// starts in the place of a trace id's first 32 bits. A provider takes it as `IdSourceOf::Xray`.
#[derive(Debug, Drop)]
pub struct XrayIdGenerator {
    random: RandomIdGenerator,
}

impl Model for XrayIdGenerator {
    ghost use Rattle.std.specs.Prelude.{ℕ, List};

    ghost Value = { List ℕ };

    ghost view = { λ a. a.random };
}

impl XrayIdGenerator {
    /// The generator of a seed.
    pub fn new(seed: u64) -> XrayIdGenerator
        ensures { result ≡ of_seed (splitmix_seed 32 seed) }
    {
        XrayIdGenerator {
            random: RandomIdGenerator::new(seed),
        }
    }
}

impl GivesIds for XrayIdGenerator {
    ghost use Rattle.std.specs.Prelude.{◌≡◌};
    ghost use Rattle.otel_sampling.specs.Ids.{next_span_id};
    ghost use Rattle.otel_sampling.specs.XrayIds.{next_xray_trace_id};

    ghost gives_trace_id = { λ old start id new. (id, new) ≡ next_xray_trace_id start old };

    ghost gives_span_id = { λ old id new. (id, new) ≡ next_span_id old };

    fn trace_id_at(&mut self, start: Moment) -> TraceId {
        let random = self.random.next_trace_number();
        TraceId::from(begun_in(seconds_of(start), random))
    }

    fn next_span_id(&mut self) -> SpanId {
        self.random.next_span_id()
    }
}

/// The whole seconds of a moment: the low 32 bits of those beyond the year 2106, to which a moment reaches.
fn seconds_of(start: Moment) -> u32
    ensures { result ≡ xray_seconds start.0 }
{
    (start.0 / 1_000_000_000 % (1 << 32)) as u32
}

/// A trace id that begins with these seconds and ends as this random one.
fn begun_in(seconds: u32, random: u128) -> u128
    ensures { result ≡ xray_trace_id seconds random }
{
    (random % (1 << 96)) | (u128::from(seconds) << 96)
}
