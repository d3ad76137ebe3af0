//! The context of a span as the header `uber-trace-id`. A program hands a `JaegerPropagator` the context and a carrier
//! on each side of a call, as to any propagator: the spans of both sides are of one trace.
//!
//! The header is `TRACE:SPAN:PARENT:FLAGS`. The parent's id is read over, and written as `0`. Flags are written as one
//! digit: `1` where the span is sampled, `3` where debug is set beside, else `0`. Baggage has headers of its own in
//! Jaeger, which are neither read nor written.

ghost use Rattle.std.specs.Prelude.{◌≡◌, IfOk, string_bytes};
ghost use Rattle.otel_propagators.specs.UberTraceId.{flags_digit, uber_trace_id_of};

use crate::jaeger::read::read_header;
use opentelemetry::propagation::{Extractor, FieldIter, Injector, TextMapPropagator};
use opentelemetry::trace::SpanContext;
use opentelemetry::{Context, TraceFlags};
use std::alloc::{AllocError, Global};

const UBER_TRACE_ID_HEADER: &str = "uber-trace-id";

/// How long a header is that is written, in bytes.
const HEADER_BYTES: usize = 53;

/// Writes the span context of contexts into carriers as Jaeger does, and reads it from them.
#[derive(Clone, Copy, Debug, Default)]
pub struct JaegerPropagator;

impl JaegerPropagator {
    /// The propagator, which has no settings.
    pub const fn new() -> JaegerPropagator {
        JaegerPropagator
    }
}

impl TextMapPropagator for JaegerPropagator {
    ghost use Rattle.std.specs.Prelude.{[], ◌∷◌};
    ghost use Rattle.otel_propagators.specs.UberTraceId.{uber_trace_id_field, InjectsJaeger, ExtractsJaeger};
    ghost use Rattle.otel_propagators.specs.UberTraceId.{JaegerIsInfallible};

    ghost inject_gives = { λ _. InjectsJaeger };

    ghost extract_gives = { λ _. ExtractsJaeger };

    ghost extract_is_infallible = { λ _. JaegerIsInfallible };

    ghost field_names = { λ _. uber_trace_id_field ∷ [] };

    /// Sets the header of a valid span context.
    fn inject_context<I: Injector>(
        &self,
        alloc: Global,
        cx: &Context,
        injector: &mut I,
    ) -> Result<(), AllocError> {
        let span_context = cx.span_context();
        if !span_context.is_valid() {
            return Ok(());
        }
        let text = uber_trace_id_of(alloc, span_context)?;
        injector.set(UBER_TRACE_ID_HEADER, text)
    }

    /// The context with the span context of the header. Where it says none, it is as it was.
    fn extract_with_context<X: Extractor>(
        &self,
        _alloc: Global,
        cx: &Context,
        extractor: &X,
    ) -> Result<Context, AllocError> {
        match read_header(extractor.get(UBER_TRACE_ID_HEADER).unwrap_or("")) {
            Some(span_context) => cx.with_remote_span_context(span_context),
            None => cx.clone(),
        }
    }

    fn fields(&self) -> FieldIter<'_> {
        FieldIter::new(&[UBER_TRACE_ID_HEADER])
    }
}

/// The header of a span context.
fn uber_trace_id_of(alloc: Global, span_context: &SpanContext) -> Result<String, AllocError>
    ensures { IfOk result (λ text. string_bytes text ≡ uber_trace_id_of span_context.now) }
{
    let trace_id = span_context.trace_id();
    let span_id = span_context.span_id();
    let digit = flags_digit(span_context.trace_flags());
    let mut text = String::with_capacity(alloc, HEADER_BYTES)?;
    write!(text, "{trace_id}:{span_id}:0:{digit}")?;
    Ok(text)
}

/// The header's flags of trace flags.
fn flags_digit(flags: TraceFlags) -> &'static str
    ensures { result.now ≡ flags_digit flags }
{
    let bits = flags.to_u8();
    if bits % 2 == 0 {
        "0"
    } else if bits / 4 % 2 == 0 {
        "1"
    } else {
        "3"
    }
}
