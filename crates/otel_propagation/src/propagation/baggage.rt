//! The baggage of a context as the header `baggage` (W3C Baggage). A program hands a `BaggagePropagator` the context
//! and a carrier on each side of a call: what a header can say of the one's baggage the other reads back, in order.

ghost use Rattle.std.specs.Prelude.{◌≡◌, OnOk};
ghost use Rattle.otel_propagation.specs.BaggageHeader.{Carries, InjectsBaggage, IsCarriedUnchanged, baggage_field};

mod read;
mod write;

use super::members::{BAGGAGE_HEADER, extracted};
use opentelemetry::Context;
use opentelemetry::laws::baggages_keep_their_limits;
use opentelemetry::propagation::{Extractor, FieldIter, Injector, TextMapPropagator};
use std::alloc::{AllocError, Global};

/// Writes the baggage of contexts into carriers, and reads it from them.
#[derive(Clone, Copy, Debug, Default)]
pub struct BaggagePropagator;

impl BaggagePropagator {
    /// The propagator, which has no settings.
    pub const fn new() -> BaggagePropagator {
        BaggagePropagator
    }
}

impl TextMapPropagator for BaggagePropagator {
    ghost use Rattle.std.specs.Prelude.{[], ◌∷◌};
    ghost use Rattle.otel_propagation.specs.BaggageHeader.{baggage_field, InjectsBaggage, ExtractsBaggage, BaggageIsInfallible};

    ghost inject_gives = { λ _. InjectsBaggage };

    ghost extract_gives = { λ _. ExtractsBaggage };

    ghost extract_is_infallible = { λ _. BaggageIsInfallible };

    ghost field_names = { λ _. baggage_field ∷ [] };

    /// Sets the header, unless the baggage is empty. The whole text is made before it is set.
    fn inject_context<I: Injector>(
        &self,
        alloc: Global,
        cx: &Context,
        injector: &mut I,
    ) -> Result<(), AllocError>
        ensures injects { InjectsBaggage cx.now (I.texts injector.old) result (I.texts injector.new) }
        ensures carried { OnOk result
            (IsCarriedUnchanged cx.now.baggage → Carries (I.texts injector.new) cx.now.baggage) }
    {
        let baggage = cx.baggage();
        if baggage.is_empty() {
            return Ok(());
        }
        baggages_keep_their_limits(baggage);
        let header = write::header_of(alloc, baggage)?;
        injector.set(BAGGAGE_HEADER, header)
    }

    /// The context with the header's baggage. Without a header, or with one of more than 8192 bytes, it is as it was.
    fn extract_with_context<X: Extractor>(
        &self,
        alloc: Global,
        cx: &Context,
        extractor: &X,
    ) -> Result<Context, AllocError> {
        extracted(self, alloc, cx, extractor)
    }

    fn fields(&self) -> FieldIter<'_> {
        FieldIter::new(&[BAGGAGE_HEADER])
    }
}
