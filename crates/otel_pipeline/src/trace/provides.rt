//! What contracts say of a provider's calls, under one name.

ghost use Rattle.otel_pipeline.specs.Calls.{Calls, calls_of};

use crate::trace::{KeepsBatches, ProviderOf};
use otel_sampling::trace::{GivesIds, ShouldSample};

/// A provider, or what stands over one, whose calls can be spoken of.
pub trait Provides {
    type Processor;

    type Sampler;

    type Ids;

    /// What is said of the calls of its processors, of its sampler and of its source of ids.
    ghost calls: { Calls Self.Processor Self.Sampler Self.Ids };
}

impl<P: KeepsBatches, S: ShouldSample, G: GivesIds> Provides for ProviderOf<P, S, G> {
    type Processor = P;

    type Sampler = S;

    type Ids = G;

    ghost calls = { calls_of P.SpanProcessor P.Timed.own P.CountsLeftSpans.own P.KeepsBatches.own
        S.ShouldSample G.GivesIds };
}
