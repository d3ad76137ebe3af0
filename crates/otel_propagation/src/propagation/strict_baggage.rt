//! The baggage of a context as the header `baggage`, by the grammar of the standard alone (W3C Baggage, section 3.3.1).
//! A service that passes on headers of strangers hands a `StrictBaggagePropagator` its contexts and carriers: nothing
//! outside the grammar comes in or leaves, and what is in the grammar is passed on byte for byte.

ghost use Rattle.std.specs.Prelude.{◌≡◌};
ghost use Rattle.otel_propagation.specs.BaggageHeader.{baggage_field};

mod pairs;
mod read;
mod write;

use super::members::{BAGGAGE_HEADER, extracted};
use opentelemetry::Context;
use opentelemetry::propagation::{Extractor, FieldIter, Injector, TextMapPropagator};
use std::alloc::{AllocError, Global};

/// Writes the baggage of contexts into carriers, and reads it from them, as the grammar of the header has it.
///
/// Nothing is percent-decoded: the application sees a value as it came, as `a%20b`. In a value that it sets itself, a
/// byte that a header cannot have is percent-encoded when it is written. A property that breaks the grammar, or an
/// entry whose name is no token, is not written.
#[derive(Clone, Copy, Debug, Default)]
pub struct StrictBaggagePropagator;

impl StrictBaggagePropagator {
    /// The propagator, which has no settings.
    pub const fn new() -> StrictBaggagePropagator {
        StrictBaggagePropagator
    }
}

impl TextMapPropagator for StrictBaggagePropagator {
    ghost use Rattle.std.specs.Prelude.{[], ◌∷◌};
    ghost use Rattle.otel_propagation.specs.BaggageHeader.{baggage_field, BaggageIsInfallible};
    ghost use Rattle.otel_propagation.specs.StrictBaggage.{InjectsStrictBaggage, ExtractsStrictBaggage};

    ghost inject_gives = { λ _. InjectsStrictBaggage };

    ghost extract_gives = { λ _. ExtractsStrictBaggage };

    ghost extract_is_infallible = { λ _. BaggageIsInfallible };

    ghost field_names = { λ _. baggage_field ∷ [] };

    /// Sets the header, unless nothing is left to write. The whole text is made before it is set.
    fn inject_context<I: Injector>(
        &self,
        alloc: Global,
        cx: &Context,
        injector: &mut I,
    ) -> Result<(), AllocError> {
        let header = write::header_of(alloc, cx.baggage())?;
        if header.is_empty() {
            return Ok(());
        }
        injector.set(BAGGAGE_HEADER, header)
    }

    /// The context with the header's baggage. Without a header, or with one of more than 8192 bytes, it is as it was.
    fn extract_with_context<X: Extractor>(
        &self,
        alloc: Global,
        cx: &Context,
        extractor: &X,
    ) -> Result<Context, AllocError> {
        extracted(self, alloc, cx, extractor)
    }

    fn fields(&self) -> FieldIter<'_> {
        FieldIter::new(&[BAGGAGE_HEADER])
    }
}
