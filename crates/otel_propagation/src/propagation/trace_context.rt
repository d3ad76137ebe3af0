//! The context of a span as the headers `traceparent` and `tracestate` (W3C Trace Context). A program hands a
//! `TraceContextPropagator` the context and a carrier on each side of a call: the spans of both sides are of one trace.

ghost use Rattle.std.specs.Prelude.{◌≡◌, ◌<◌, ◌≤◌, ◌^◌, [], ◌∷◌, ◌++◌, Some, List, ℕ, IfOk, IfSome, IsOk, OnOk};
ghost use Rattle.std.specs.Prelude.{MatchOption, string_bytes};
ghost use Rattle.std.specs.Option.{option_copied};
ghost use Rattle.opentelemetry.specs.PlainContexts.{current_span_context};
ghost use Rattle.opentelemetry.specs.Hex.{hex_text};
ghost use Rattle.opentelemetry.specs.Plain.{PlainSpanContext};
ghost use Rattle.otel_propagation.specs.Traceparent.{hyphen, traceparent_of, CarriesSpan, InjectsTraceContext};
ghost use Rattle.otel_propagation.specs.Traceparent.{IsTraceparent, IsValid, MayFollow, SaysState, header_text};
ghost use Rattle.otel_propagation.specs.Traceparent.{traceparent_field, tracestate_field};

use opentelemetry::laws::span_contexts_fit;
use opentelemetry::propagation::{Extractor, FieldIter, Injector, TextMapPropagator};
use opentelemetry::trace::{SpanContext, TraceState, TraceStateError};
use opentelemetry::trace_context::number_from_hex;
use opentelemetry::{Context, SpanId, TraceFlags, TraceId};
use std::alloc::{AllocError, Global};

const TRACEPARENT_HEADER: &str = "traceparent";

const TRACESTATE_HEADER: &str = "tracestate";

/// How long a header of version 0 is, in bytes.
const TRACEPARENT_BYTES: usize = 55;

/// The version that none can have.
const INVALID_VERSION: u128 = 0xff;

/// Writes the span context of contexts into carriers, and reads it from them.
#[derive(Clone, Copy, Debug, Default)]
pub struct TraceContextPropagator;

impl TraceContextPropagator {
    /// The propagator, which has no settings.
    pub const fn new() -> TraceContextPropagator {
        TraceContextPropagator
    }
}

impl TextMapPropagator for TraceContextPropagator {
    ghost use Rattle.std.specs.Prelude.{[], ◌∷◌};
    ghost use Rattle.otel_propagation.specs.Traceparent.{traceparent_field, tracestate_field};
    ghost use Rattle.otel_propagation.specs.Traceparent.{InjectsTraceContext, ExtractsTraceContext, TraceContextIsInfallible};

    ghost inject_gives = { λ _. InjectsTraceContext };

    ghost extract_gives = { λ _. ExtractsTraceContext };

    ghost extract_is_infallible = { λ _. TraceContextIsInfallible };

    ghost field_names = { λ _. traceparent_field ∷ tracestate_field ∷ [] };

    /// Sets both headers of a valid span context, that of the trace state also where it is empty. Both texts are made
    /// before one is set.
    fn inject_context<I: Injector>(
        &self,
        alloc: Global,
        cx: &Context,
        injector: &mut I,
    ) -> Result<(), AllocError>
        ensures injects { InjectsTraceContext cx.now (I.texts injector.old) result (I.texts injector.new) }
        ensures carried { OnOk result
            (IsValid (current_span_context cx.now) → CarriesSpan (I.texts injector.new) (current_span_context cx.now)) }
    {
        let span_context = cx.span_context();
        if !span_context.is_valid() {
            return Ok(());
        }
        span_contexts_fit(span_context);
        let parent = traceparent_of(alloc, span_context)?;
        let state = span_context.trace_state().header(alloc)?;
        injector.set(TRACEPARENT_HEADER, parent)?;
        injector.set(TRACESTATE_HEADER, state)
    }

    /// The context with the span context of the headers. Where `traceparent` says none, it is as it was; a `tracestate`
    /// that does not read counts as empty.
    fn extract_with_context<X: Extractor>(
        &self,
        alloc: Global,
        cx: &Context,
        extractor: &X,
    ) -> Result<Context, AllocError> {
        let Some(parent) = read_parent(extractor.get(TRACEPARENT_HEADER).unwrap_or("")) else {
            return cx.clone();
        };
        let state = read_state(alloc, extractor.get(TRACESTATE_HEADER))?;
        cx.with_remote_span_context(SpanContext::new(
            parent.trace_id(),
            parent.span_id(),
            parent.trace_flags(),
            parent.is_remote(),
            state,
        ))
    }

    fn fields(&self) -> FieldIter<'_> {
        FieldIter::new(&[TRACEPARENT_HEADER, TRACESTATE_HEADER])
    }
}

/// The header of a span context, in version 0.
fn traceparent_of(alloc: Global, span_context: &SpanContext) -> Result<String, AllocError>
    ensures { IfOk result (λ text. string_bytes text ≡ traceparent_of span_context.now) }
{
    let trace_id = span_context.trace_id();
    let span_id = span_context.span_id();
    let flags = TraceFlags::new(span_context.trace_flags().to_u8() % 2);
    let mut text = String::with_capacity(alloc, TRACEPARENT_BYTES)?;
    write!(text, "00-{trace_id}-{span_id}-{flags}")?;
    Ok(text)
}

/// The span context that a header says, without a trace state.
fn read_parent(text: &str) -> Option<SpanContext>
    ensures { MatchOption result
        ((c : PlainSpanContext) → ¬ (IsTraceparent text.now c))
        (λ c. IsTraceparent text.now c) }
{
    let (version, rest) = read_field(text.trim(), 2)?;
    let (trace_id, rest) = read_field(rest, 32)?;
    let (span_id, rest) = read_field(rest, 16)?;
    let flags = read_flags(rest, version)?;
    if version == INVALID_VERSION || trace_id == 0 || span_id == 0 {
        return None;
    }
    Some(SpanContext::new(
        TraceId::from(trace_id),
        SpanId::from(span_id as u64),
        TraceFlags::new((flags % 2) as u8),
        true,
        TraceState::new(),
    ))
}

/// The number that so many digits before a hyphen spell, and what stands after the hyphen.
fn read_field(text: &str, digits: usize) -> Option<(u128, &str)>
    requires { digits ≤ 32 }
    ensures value { IfSome result (λ field. (field.0 < 16 ^ digits)
        × (text.now ≡ hex_text digits field.0 ++ hyphen ∷ field.1.now)) }
    ensures only { (number : ℕ) (rest : List ℕ) → number < 16 ^ digits
        → text.now ≡ hex_text digits number ++ hyphen ∷ rest
        → MatchOption result ⊥ (λ field. (field.0 ≡ number) × (field.1.now ≡ rest)) }
{
    let (front, after) = text.split_once('-')?;
    Some((number_from_hex(front, digits)?, after))
}

/// The flags at the end of a header of this version. A hyphen may stand after them, and anything after that where the
/// version is not 0.
fn read_flags(text: &str, version: u128) -> Option<u128>
    ensures value { IfSome result (λ flags. (flags < 16 ^ 2)
        × ((rest : List ℕ) × MayFollow version rest × (text.now ≡ hex_text 2 flags ++ rest))) }
    ensures only { (flags : ℕ) (rest : List ℕ) → flags < 16 ^ 2 → MayFollow version rest
        → text.now ≡ hex_text 2 flags ++ rest → result ≡ Some flags }
{
    match read_field(text, 2) {
        Some((flags, rest)) if version > 0 || rest.is_empty() => Some(flags),
        Some(_) => None,
        None => number_from_hex(text, 2),
    }
}

/// The trace state that a header says; the empty one without a header, and where it does not read.
fn read_state(alloc: Global, header: Option<&str>) -> Result<TraceState, AllocError>
    ensures state { IfOk result (λ state. SaysState (option_copied header.entry) state) }
    ensures free { SaysState (option_copied header.entry) [] → IsOk result }
{
    let Some(text) = header else {
        return Ok(TraceState::new());
    };
    match TraceState::from_str(alloc, text) {
        Ok(state) => Ok(state),
        Err(TraceStateError::Memory) => Err(AllocError),
        Err(TraceStateError::Key | TraceStateError::Value | TraceStateError::List) => Ok(
            TraceState::new(),
        ),
    }
}
