//! The headers `traceparent`, `tracestate` and `baggage` (W3C Trace Context, W3C Baggage). The headers come from
//! strangers, so a baggage is read and written by its grammar alone: no line break comes in or leaves.

ghost use Rattle.std.specs.Prelude.{IfOk, OnOk};
ghost use Rattle.opentelemetry.specs.PlainContexts.{root_cx};
ghost use Rattle.otel_propagation.specs.Traceparent.{ExtractsTraceContext};
ghost use Rattle.otel_embed.specs.Headers.{ReadsContext, SetsContext};

use opentelemetry::Context;
use opentelemetry::propagation::{Extractor, Injector, TextMapPropagator};
use otel_propagation::propagation::{StrictBaggagePropagator, TraceContextPropagator};
use std::alloc::{AllocError, Global};

/// The context that headers say: of the span of another process, with what its baggage hands on. Headers that do not
/// read say nothing.
pub(crate) fn context_of<X: Extractor>(alloc: Global, headers: &X) -> Result<Context, AllocError>
    ensures { IfOk result (ReadsContext (X.reads headers.now)) }
{
    let traced = traced_of(alloc, headers)?;
    StrictBaggagePropagator::new().extract_with_context(alloc, &traced, headers)
}

/// The context of the span that headers say, and nothing else.
fn traced_of<X: Extractor>(alloc: Global, headers: &X) -> Result<Context, AllocError>
    ensures { IfOk result (ExtractsTraceContext root_cx (X.reads headers.now)) }
{
    TraceContextPropagator::new().extract_with_context(alloc, &Context::new(), headers)
}

/// Sets the headers of a context. After an error some may be set.
pub(crate) fn inject<I: Injector>(
    alloc: Global,
    cx: &Context,
    headers: &mut I,
) -> Result<(), AllocError>
    ensures { OnOk result (SetsContext cx.now (I.texts headers.old) (I.texts headers.new)) }
{
    TraceContextPropagator::new().inject_context(alloc, cx, headers)?;
    StrictBaggagePropagator::new().inject_context(alloc, cx, headers)
}
