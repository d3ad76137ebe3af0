//! The laws of headers as carriers, over the definitions alone. Each function does nothing; its contract is the law, for
//! all values.

ghost use Rattle.std.specs.Prelude.{◌≡◌, ◌≢◌, ◌≤◌, ◌∷◌, [], IfSome, List, Ok, Some, length, nat_le, ℕ};
ghost use Rattle.http_header.specs.FieldValue.{FieldValue};
ghost use Rattle.http_header.specs.HeaderMap.{get_all};
ghost use Rattle.http.specs.declared.request.Request.{Request};
ghost use Rattle.http_server.specs.Exchange.{Call, Chain};
ghost use Rattle.http_server.specs.declared.response.Response.{Response};
ghost use Rattle.opentelemetry.specs.Baggage.{HasDistinctNames, IsWithinLimits};
ghost use Rattle.opentelemetry.specs.Plain.{PlainContext};
ghost use Rattle.opentelemetry.specs.PlainContexts.{current_span_context, root_cx};
ghost use Rattle.otel_pipeline.specs.SpanHistory.{PlainSpan};
ghost use Rattle.otel_propagation.specs.StrictBaggage.{strict_header_of, written_entries};
ghost use Rattle.otel_propagation.specs.StrictBaggage.{ExtractsStrictBaggage, InjectsStrictBaggage};
ghost use Rattle.otel_propagation.specs.Traceparent.{CarriesSpan, ExtractsTraceContext, InjectsTraceContext};
ghost use Rattle.otel_propagation.specs.Traceparent.{IsSpanContext, IsValid, traceparent_field};
ghost use Rattle.otel_scope.specs.Currents.{settled};
ghost use Rattle.otel_scope.specs.declared.tracing.Tracing.{Tracing};
ghost use Rattle.otel_http.specs.Connections.{AnswersCalls};
ghost use Rattle.otel_http.specs.Contexts.{IsContextOf};
ghost use Rattle.otel_http.specs.Headers.{Headers, header_texts};
ghost use Rattle.otel_http.specs.RequestSpans.{IsServerSpan};
ghost use Rattle.otel_http.specs.Serving.{ServesIn, TracedState, TracesRequest};
ghost use Rattle.otel_http.specs.declared.traced.TheConstants.{FIRST_FAILURE};

use crate::TracedService;
use opentelemetry::propagation::TextMapPropagator;
use otel_pipeline::trace::{Now, SpanProcessor};
use otel_propagation::laws::injected_span_context_is_carried;
use otel_propagation::propagation::{
    CompositePropagator, StrictBaggagePropagator, TraceContextPropagator,
};
use otel_propagation::strict_laws::{strict_headers_are_of_the_grammar, strict_headers_are_read};
use otel_sampling::trace::{GivesIds, ShouldSample};
use otel_scope::{HoldsSpans, Tracing};

/// What is written of a valid span context into headers, whoever gets these headers extracts.
pub fn headers_carry_span_contexts()
    ensures { (cx : PlainContext) (old new : Headers) → IsSpanContext (current_span_context cx)
        → IsValid (current_span_context cx)
        → InjectsTraceContext cx (header_texts old) (Ok tt) (header_texts new)
        → CarriesSpan (header_texts new) (current_span_context cx) }
{
    injected_span_context_is_carried();
}

/// What is written of a baggage into headers, whoever gets these headers extracts, if it is short enough to be read.
pub fn headers_carry_baggage()
    ensures { (cx receiver found : PlainContext) (old new : Headers) → IsWithinLimits cx.baggage
        → strict_header_of cx.baggage ≢ [] → length (strict_header_of cx.baggage) ≤ 8192
        → HasDistinctNames (written_entries cx.baggage) → length (written_entries cx.baggage) ≤ 64
        → InjectsStrictBaggage cx (header_texts old) (Ok tt) (header_texts new)
        → ExtractsStrictBaggage receiver (header_texts new) found
        → found.baggage ≡ written_entries cx.baggage }
{
    strict_headers_are_of_the_grammar();
    strict_headers_are_read();
}

/// Two fields `traceparent` say no span context: none of them is taken (W3C Trace Context).
pub fn two_traceparents_say_nothing()
    ensures { (headers : Headers) (first second : FieldValue) (more : List FieldValue) (cx found : PlainContext)
        → get_all headers traceparent_field ≡ first ∷ second ∷ more
        → ExtractsTraceContext cx (header_texts headers) found → found ≡ cx }
{}

/// What a span records of a request says whose it is: it is a server's span, below the span of the context that the
/// request's headers give, and of that one's trace.
pub fn served_spans_follow_their_headers<
    V: TracedService<Tracing<P, S, G, C, T>>,
    P: SpanProcessor,
    S: ShouldSample,
    G: GivesIds,
    C: Now,
    T: TextMapPropagator,
>()
    ensures { (old new : TracedState V (Tracing P S G C T)) (request : Request (List ℕ)) (cx : PlainContext)
        (response : Response)
        → (served : ServesIn ⟦<Tracing<P, S, G, C, T> as HoldsSpans>⟧ V.serves cx old request response new)
        → (span : PlainSpan) → served.inside.said.current.span ≡ Some span
        → IfSome (settled (nat_le FIRST_FAILURE response.status) span).recorded (IsServerSpan cx) }
{}

/// Over the requests that a connection answered, in order: each ended one span of its own, after the service answered
/// it and before the next one came, and no span where there was no memory for one, which counts. All of them were read
/// in the context of the first. That these are the requests in the bytes that the connection received is what
/// `http_server` says of it.
pub fn each_answer_ends_a_span<
    V: TracedService<Tracing<P, S, G, C, T>>,
    P: SpanProcessor,
    S: ShouldSample,
    G: GivesIds,
    C: Now,
    T: TextMapPropagator,
>()
    ensures { (old new : TracedState V (Tracing P S G C T)) (calls : List Call)
        → Chain (TracesRequest ⟦<Tracing<P, S, G, C, T> as HoldsSpans>⟧ V.serves) old calls new
        → AnswersCalls P.SpanProcessor S.ShouldSample G.GivesIds C.tells
        ⟦<Tracing<P, S, G, C, T> as HoldsSpans>⟧ V.serves old calls new }
{}

/// The propagator of W3C's headers.
type W3cPropagator = CompositePropagator<TraceContextPropagator, StrictBaggagePropagator>;

/// Where no span is current, a scope whose propagator is that of W3C reads of headers the context that they carry.
pub fn scopes_read_what_headers_carry<P: SpanProcessor, S: ShouldSample, G: GivesIds, C: Now>()
    ensures { (scope : Tracing P S G C (CompositePropagator TraceContextPropagator StrictBaggagePropagator))
        (headers : Headers) (cx : PlainContext)
        → ⟦<Tracing<P, S, G, C, W3cPropagator> as HoldsSpans>⟧.extracts scope root_cx (header_texts headers) cx
        → IsContextOf headers cx }
{}
