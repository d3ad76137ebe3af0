//! The headers by which another process continues a trace (W3C Trace Context).

ghost use Rattle.opentelemetry.specs.PlainContexts.{current_span_context};
ghost use Rattle.std.specs.Prelude.{◌≡◌, IfOk, string_bytes};
ghost use Rattle.otel_trace_session.specs.Headers.{AnswersHeaders, SaysContext, child_cx};

use opentelemetry::Context;
use opentelemetry::propagation::{Extractor, Injector, MapCarrier, TextMapPropagator};
use opentelemetry::trace::SpanContext;
use otel_propagation::propagation::TraceContextPropagator;
use otel_trace_lines::Answer;
use std::alloc::{AllocError, Global};

/// The context in which a span is active, and nothing else.
pub(crate) fn child_context(parent: &SpanContext) -> Result<Context, AllocError>
    ensures { IfOk result (λ cx. cx ≡ child_cx parent.now) }
{
    Context::new().with_span_context(parent.clone()?)
}

/// The context that a `traceparent` says, without a `tracestate` beside it.
pub(crate) fn remote_context(alloc: Global, traceparent: String) -> Result<Context, AllocError>
    ensures { IfOk result (SaysContext (string_bytes traceparent)) }
{
    let mut carrier = MapCarrier::new(alloc);
    carrier.set("traceparent", traceparent)?;
    TraceContextPropagator::new().extract_with_context(alloc, &Context::new(), &carrier)
}

/// What is said of the headers of the span that is active in a context.
pub(crate) fn answer_with_headers(alloc: Global, cx: &Context) -> Result<Answer, AllocError>
    ensures { IfOk result (AnswersHeaders (current_span_context cx.now)) }
{
    let mut carrier = MapCarrier::new(alloc);
    TraceContextPropagator::new().inject_context(alloc, cx, &mut carrier)?;
    let Some(parent) = carrier.get("traceparent") else {
        return Ok(Answer::NoHeaders);
    };
    let Some(state) = carrier.get("tracestate") else {
        return Ok(Answer::NoHeaders);
    };
    Ok(Answer::Headers {
        traceparent: String::from_str(alloc, parent)?,
        tracestate: String::from_str(alloc, state)?,
    })
}
