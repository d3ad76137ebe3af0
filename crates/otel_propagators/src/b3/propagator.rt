//! The context of a span as B3 headers. A program hands a `B3Propagator` the context and a carrier on each side of a
//! call, as to any propagator: the spans of both sides are of one trace.
//!
//! The names are in lower case, as those of the Rust crates are: carriers of HTTP take names in either case, and others
//! have lower case alone. Both kinds of headers are read, and the single one first. Where that one says a sampling state
//! alone, it says it of the ids in the many; without those there is no span context, so nothing is extracted. The span
//! id of a parent is read over and not written, since no span here has the id of its caller's.

ghost use Rattle.std.specs.Prelude.{◌≡◌};
ghost use Rattle.otel_propagators.specs.declared.b3.encoding.B3Encoding.TheVariants.{SingleHeader};

use crate::b3::encoding::B3Encoding;
use crate::b3::read::read_span;
use crate::b3::write::{headers_of, set_all};
use opentelemetry::Context;
use opentelemetry::propagation::{Extractor, FieldIter, Injector, TextMapPropagator};
use std::alloc::{AllocError, Global};

/// Writes the span context of contexts into carriers as B3, and reads it from them.
#[derive(Clone, Copy, Debug, Default)]
pub struct B3Propagator {
    encoding: B3Encoding,
}

impl B3Propagator {
    /// The propagator that writes the single header.
    pub fn new() -> B3Propagator
        ensures { result.encoding ≡ SingleHeader }
    {
        B3Propagator::with_encoding(B3Encoding::SingleHeader)
    }

    /// A propagator that writes the headers of this encoding. It reads all of them.
    pub fn with_encoding(encoding: B3Encoding) -> B3Propagator
        ensures { result.encoding ≡ encoding }
    {
        B3Propagator { encoding }
    }
}

impl TextMapPropagator for B3Propagator {
    ghost use Rattle.otel_propagators.specs.B3Headers.{fields_of, InjectsB3, ExtractsB3, B3IsInfallible};

    ghost inject_gives = { λ propagator. InjectsB3 propagator.encoding };

    ghost extract_gives = { λ _. ExtractsB3 };

    ghost extract_is_infallible = { λ _. B3IsInfallible };

    ghost field_names = { λ propagator. fields_of propagator.encoding };

    /// Sets the headers of a valid span context.
    fn inject_context<I: Injector>(
        &self,
        alloc: Global,
        cx: &Context,
        injector: &mut I,
    ) -> Result<(), AllocError> {
        let span_context = cx.span_context();
        if !span_context.is_valid() {
            return Ok(());
        }
        let headers = headers_of(alloc, self.encoding, span_context)?;
        set_all(injector, headers)
    }

    /// The context with the span context of the headers. Where they say none, it is as it was.
    fn extract_with_context<X: Extractor>(
        &self,
        _alloc: Global,
        cx: &Context,
        extractor: &X,
    ) -> Result<Context, AllocError> {
        match read_span(extractor) {
            Some(span_context) => cx.with_remote_span_context(span_context),
            None => cx.clone(),
        }
    }

    fn fields(&self) -> FieldIter<'_> {
        self.encoding.fields()
    }
}
