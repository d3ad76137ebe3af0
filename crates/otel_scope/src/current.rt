//! Where a scope stands.

ghost use Rattle.std.specs.Prelude.{◌≡◌};
ghost use Rattle.std.specs.Option.{option_map};
ghost use Rattle.opentelemetry.specs.PlainContexts.{root_cx};
ghost use Rattle.otel_scope.specs.Currents.{IsBeside, at_root, bare, records_here, without_state};

use opentelemetry::Context;
use opentelemetry::trace::{SpanContext, TraceState};
use otel_pipeline::trace::Span;

/// The span that is current, if one is, and the context in which the next one starts.
pub struct Current {
    pub span: Option<Span>,
    pub cx: Context,
}

impl Current {
    /// No span, and the context of roots.
    pub fn root() -> Current
        ensures { result ≡ at_root }
    {
        Current {
            span: None,
            cx: Context::new(),
        }
    }

    /// Whether edits reach the current span.
    pub fn is_recording(&self) -> bool
        ensures { result ≡ records_here self.now }
    {
        match &self.span {
            Some(span) => span.is_recording(),
            None => false,
        }
    }

    /// Where work is that has no span of its own: its edits are made nowhere, and the spans inside are children of the
    /// span outside. Where there is no memory to share the context, of which only that span and whether telemetry is
    /// suppressed are kept, it takes none.
    pub(crate) fn beside(&self) -> Current
        ensures { IsBeside self.now result }
    {
        let cx = match self.cx.clone() {
            Ok(cx) => cx,
            Err(_) => bare(&self.cx),
        };
        Current { span: None, cx }
    }

    /// Spends what is current; nothing is delivered.
    pub(crate) fn give_up(self) {
        let Current { span, cx: _ } = self;
        if let Some(span) = span {
            span.abandon();
        }
    }
}

/// The context of which only the ids of the active span are kept, and whether telemetry is suppressed. It takes no memory.
fn bare(cx: &Context) -> Context
    ensures { result ≡ bare cx.now }
{
    let active = with_ids_of(cx);
    if !cx.is_telemetry_suppressed() {
        return active;
    }
    match active.with_telemetry_suppressed() {
        Ok(suppressed) => suppressed,
        Err(_) => unreachable!(),
    }
}

/// The context of which only the ids of the active span are kept.
fn with_ids_of(cx: &Context) -> Context
    ensures { result ≡ record root_cx { span_context = option_map without_state cx.now.span_context } }
{
    if !cx.has_active_span() {
        return Context::new();
    }
    match Context::new().with_span_context(without_state(cx.span_context())) {
        Ok(active) => active,
        Err(_) => unreachable!(),
    }
}

/// Who a span is, without its trace state.
fn without_state(span_context: &SpanContext) -> SpanContext
    ensures { result ≡ without_state span_context.now }
{
    SpanContext::new(
        span_context.trace_id(),
        span_context.span_id(),
        span_context.trace_flags(),
        span_context.is_remote(),
        TraceState::new(),
    )
}
