//! What of a context is written into headers. All texts are made before one of them is set, so that headers stay as they
//! were where there is no memory for a text, and no other name can be set.

ghost use Rattle.std.specs.Prelude.{◌≡◌, ◌≢◌, [], IfOk, IsSome, OnErr, OnOk, option_map, string_bytes};
ghost use Rattle.otel_http.specs.ContextFields.{SetsFields, SetsUpTo, context_fields};
ghost use Rattle.otel_http.specs.ContextTexts.{field_if};
ghost use Rattle.otel_http.specs.Injection.{headers_of};

use crate::fields::TRACEPARENT;
use crate::{HeaderInjector, SetHeaderError};
use opentelemetry::Context;
use opentelemetry::propagation::{Injector, TextMapPropagator};
use otel_propagation::propagation::{StrictBaggagePropagator, TraceContextPropagator};
use std::alloc::{AllocError, Global};

const TRACESTATE: &str = "tracestate";

const BAGGAGE: &str = "baggage";

/// The texts of a context, each under its name.
#[derive(Debug, Drop)]
pub(crate) struct ContextTexts {
    traceparent: Option<String>,
    tracestate: Option<String>,
    baggage: Option<String>,
}

impl ContextTexts {
    ghost use Rattle.otel_http.specs.ContextTexts.{fields_in, no_texts, texts_of};

    fn new() -> ContextTexts
        ensures { texts_of result ≡ no_texts }
    {
        ContextTexts {
            traceparent: None,
            tracestate: None,
            baggage: None,
        }
    }

    /// The texts of a context. Where nothing is written of it they need no memory.
    pub(crate) fn of(alloc: Global, cx: &Context) -> Result<ContextTexts, AllocError>
        ensures ok { IfOk result (λ texts. fields_in (texts_of texts) ≡ context_fields cx.now) }
        ensures err { OnErr result (context_fields cx.now ≢ []) }
    {
        let mut texts = ContextTexts::new();
        TraceContextPropagator::new().inject_context(alloc, cx, &mut texts)?;
        StrictBaggagePropagator::new().inject_context(alloc, cx, &mut texts)?;
        Ok(texts)
    }

    /// Sets the texts in headers, in order.
    pub(crate) fn set_in(self, headers: &mut HeaderInjector) -> Result<(), SetHeaderError>
        ensures ok { OnOk result
            (SetsFields (headers_of headers.old) (fields_in (texts_of self)) (headers_of headers.new)) }
        ensures err { OnErr result
            (SetsUpTo (headers_of headers.old) (fields_in (texts_of self)) (headers_of headers.new)) }
    {
        let ContextTexts {
            traceparent,
            tracestate,
            baggage,
        } = self;
        set_text(headers, TRACEPARENT, traceparent)?;
        set_text(headers, TRACESTATE, tracestate)?;
        set_text(headers, BAGGAGE, baggage)
    }
}

impl Injector for ContextTexts {
    ghost use Rattle.otel_http.specs.ContextTexts.{texts_of};

    ghost texts = { texts_of };

    /// Another name than a context's is refused.
    fn set(&mut self, key: &str, value: String) -> Result<(), AllocError> {
        if key == TRACEPARENT {
            self.traceparent = Some(value);
        } else if key == TRACESTATE {
            self.tracestate = Some(value);
        } else if key == BAGGAGE {
            self.baggage = Some(value);
        } else {
            return Err(AllocError);
        }
        Ok(())
    }
}

/// Sets a text in headers, if there is one.
fn set_text(
    headers: &mut HeaderInjector,
    name: &str,
    text: Option<String>,
) -> Result<(), SetHeaderError>
    ensures ok { OnOk result (SetsFields (headers_of headers.old)
        (field_if name.now (option_map (λ t. string_bytes t) text)) (headers_of headers.new)) }
    ensures err { OnErr result (IsSome text × (headers_of headers.new ≡ headers_of headers.old)) }
{
    match text {
        Some(text) => headers.try_set(name, text),
        None => Ok(()),
    }
}
