//! Contexts into headers, and out of them.

ghost use Rattle.std.specs.Prelude.{◌≡◌, IfOk, OnErr, OnOk};
ghost use Rattle.opentelemetry.specs.PlainContexts.{root_cx};
ghost use Rattle.otel_propagation.specs.Traceparent.{ExtractsTraceContext};
ghost use Rattle.otel_http.specs.ContextFields.{SetsFields, SetsUpTo, context_fields, other_fields};
ghost use Rattle.otel_http.specs.Contexts.{ExtractsContext, InjectsContext, IsContextOf};
ghost use Rattle.otel_http.specs.Headers.{header_texts};
ghost use Rattle.otel_http.specs.Injection.{carrier_answer};

use crate::context_texts::ContextTexts;
use crate::{HeaderExtractor, HeaderInjector, SetHeaderError};
use http_header::HeaderMap;
use opentelemetry::Context;
use opentelemetry::propagation::{Extractor, TextMapPropagator};
use otel_propagation::propagation::{StrictBaggagePropagator, TraceContextPropagator};
use otel_scope::HoldsSpans;
use std::alloc::{AllocError, Global};
use std::mem;

/// Writes what of a context travels into headers. On an error the texts that were set before it stay.
pub fn inject_headers<P: TextMapPropagator>(
    propagator: &P,
    alloc: Global,
    cx: &Context,
    headers: &mut HeaderMap,
) -> Result<(), SetHeaderError>
    ensures { P.inject_gives propagator.now cx.now (header_texts headers.old) (carrier_answer result)
        (header_texts headers.new) }
{
    let taken = mem::replace(headers, HeaderMap::new(alloc));
    let mut injector = HeaderInjector::new(alloc, taken);
    let injected = propagator.inject_context(alloc, cx, &mut injector);
    let refusal = injector.refusal();
    *headers = injector.into_headers();
    match injected {
        Ok(()) => Ok(()),
        Err(_) => Err(refusal.unwrap_or(SetHeaderError::Memory)),
    }
}

/// Writes what of the current context travels into headers, by the propagator of the scope. On an error the texts that
/// were set before it stay.
pub(crate) fn inject_here<S: HoldsSpans>(
    scope: &S,
    headers: &mut HeaderMap,
) -> Result<(), AllocError>
    ensures { S.injects scope.now (S.current scope.now).cx (header_texts headers.old) result
        (header_texts headers.new) }
{
    let taken = mem::replace(headers, HeaderMap::new(scope.alloc()));
    let mut injector = HeaderInjector::new(scope.alloc(), taken);
    let injected = scope.inject_current(&mut injector);
    *headers = injector.into_headers();
    injected
}

/// The current context with what headers say in place of what it had, by the propagator of the scope.
pub(crate) fn extract_here<S: HoldsSpans>(
    scope: &S,
    headers: &HeaderMap,
) -> Result<Context, AllocError>
    ensures { IfOk result (λ found. S.extracts scope.now (S.current scope.now).cx (header_texts headers.now) found) }
{
    let extractor = HeaderExtractor::new(scope.alloc(), headers)?;
    scope.extract_here(&extractor)
}

/// The context with what headers say in place of what it had.
pub fn extract_headers<P: TextMapPropagator>(
    propagator: &P,
    alloc: Global,
    cx: &Context,
    headers: &HeaderMap,
) -> Result<Context, AllocError>
    ensures { IfOk result (λ found. P.extract_gives propagator.now cx.now (header_texts headers.now) found) }
{
    let extractor = HeaderExtractor::new(alloc, headers)?;
    propagator.extract_with_context(alloc, cx, &extractor)
}

/// Writes a context into headers as W3C has it: the span context, and then the baggage by the strict grammar. On an error
/// a beginning of its headers is set; all others stay as they are, whether it succeeds or not.
pub fn inject_context(
    alloc: Global,
    cx: &Context,
    headers: &mut HeaderMap,
) -> Result<(), SetHeaderError>
    ensures injects { InjectsContext cx.now headers.old (carrier_answer result) headers.new }
    ensures ok { OnOk result (SetsFields headers.old (context_fields cx.now) headers.new) }
    ensures err { OnErr result (SetsUpTo headers.old (context_fields cx.now) headers.new) }
    ensures others { other_fields headers.new ≡ other_fields headers.old }
{
    let Ok(texts) = ContextTexts::of(alloc, cx) else {
        return Err(SetHeaderError::Memory);
    };
    let taken = mem::replace(headers, HeaderMap::new(alloc));
    let mut injector = HeaderInjector::new(alloc, taken);
    let set = texts.set_in(&mut injector);
    *headers = injector.into_headers();
    set
}

/// The context that headers carry as W3C has it: a span context and a baggage by the strict grammar, where they are
/// valid, and else that of a root.
pub fn extract_context(alloc: Global, headers: &HeaderMap) -> Result<Context, AllocError>
    ensures { IfOk result (IsContextOf headers.now) }
{
    let extractor = HeaderExtractor::new(alloc, headers)?;
    both_of(alloc, &extractor)
}

/// What a carrier's texts say in place of a root's context.
fn both_of<X: Extractor>(alloc: Global, extractor: &X) -> Result<Context, AllocError>
    ensures { IfOk result (ExtractsContext (X.reads extractor.now)) }
{
    let traced = traced_of(alloc, extractor)?;
    StrictBaggagePropagator::new().extract_with_context(alloc, &traced, extractor)
}

/// The context of the span that a carrier's texts say, and nothing else.
fn traced_of<X: Extractor>(alloc: Global, extractor: &X) -> Result<Context, AllocError>
    ensures { IfOk result (ExtractsTraceContext root_cx (X.reads extractor.now)) }
{
    TraceContextPropagator::new().extract_with_context(alloc, &Context::new(), extractor)
}
