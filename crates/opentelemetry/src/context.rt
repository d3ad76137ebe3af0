//! What a new span starts in: the span that is active there, what an application hands on, and whether telemetry is
//! suppressed. A context does not change: each `with_` makes another one. Contexts share what they have in common.

ghost use Rattle.std.specs.Prelude.{◌≡◌, ◌↔◌, [], Some, true, IsTrue, IsSome, IsOk, IfOk};
ghost use Rattle.opentelemetry.specs.PlainContexts.{SharesNothing, current_span_context, root_cx, shared_baggage};

use crate::baggage::Baggage;
use crate::trace::SpanContext;
use std::alloc::AllocError;
use std::marker::Model;
use std::sync::Arc;

/// An execution context: what is known where a span starts.
#[derive(Debug, Drop)]
pub struct Context {
    span_context: SpanContext,
    has_active_span: bool,
    baggage: Option<Arc<Baggage>>,
    no_baggage: Baggage,
    telemetry_suppressed: bool,
}

impl Model for Context {
    ghost use Rattle.std.specs.Prelude.{◌≡◌, [], false};
    ghost use Rattle.opentelemetry.specs.Plain.{PlainContext};
    ghost use Rattle.opentelemetry.specs.PlainContexts.{active_span_context, empty_span_context, shared_baggage};

    ghost Value = { PlainContext };

    ghost view = { λ cx. record {
      span_context = active_span_context cx.has_active_span cx.span_context;
      baggage = shared_baggage cx.baggage;
      telemetry_suppressed = cx.telemetry_suppressed;
    } };

    ghost invariant = { λ cx. (cx.no_baggage ≡ [])
        × (cx.has_active_span ≡ false → cx.span_context ≡ empty_span_context) };
}

impl Context {
    /// The context in which no span is active, nothing is handed on and nothing is suppressed.
    pub fn new() -> Context
        ensures { result ≡ root_cx }
    {
        Context {
            span_context: SpanContext::empty_context(),
            has_active_span: false,
            baggage: None,
            no_baggage: Baggage::empty(),
            telemetry_suppressed: false,
        }
    }

    /// The context with the span of this span context active, even where that is the empty one. `AllocError` where
    /// the baggage cannot be shared when memory runs out.
    pub fn with_span_context(&self, span_context: SpanContext) -> Result<Context, AllocError>
        ensures ok { IfOk result (λ cx. cx ≡ record self.now { span_context = Some span_context }) }
        ensures free { self.now.baggage ≡ [] → IsOk result }
    {
        Ok(Context {
            span_context,
            has_active_span: true,
            baggage: share(&self.baggage)?,
            no_baggage: Baggage::empty(),
            telemetry_suppressed: self.telemetry_suppressed,
        })
    }

    /// As `with_span_context`: whether the span is remote stands in the span context.
    pub fn with_remote_span_context(&self, span_context: SpanContext) -> Result<Context, AllocError>
        ensures ok { IfOk result (λ cx. cx ≡ record self.now { span_context = Some span_context }) }
        ensures free { self.now.baggage ≡ [] → IsOk result }
    {
        self.with_span_context(span_context)
    }

    /// The active span's context, the empty one where no span is active.
    pub fn span_context(&self) -> &SpanContext
        ensures { result.now ≡ current_span_context self.now }
    {
        &self.span_context
    }

    /// Whether a span is active, also one whose span context is the empty one.
    pub fn has_active_span(&self) -> bool
        ensures { IsTrue result ↔ IsSome self.now.span_context }
    {
        self.has_active_span
    }

    /// The context that hands on this baggage in place of its own. `AllocError` where there is no memory for the copy
    /// that contexts share, or to share the trace state; without either it needs none.
    pub fn with_baggage(&self, baggage: Baggage) -> Result<Context, AllocError>
        ensures ok { IfOk result (λ cx. cx ≡ record self.now { baggage = baggage }) }
        ensures free { (current_span_context self.now).trace_state ≡ [] → baggage ≡ [] → IsOk result }
    {
        let shared = match baggage.allocator() {
            Some(alloc) if !baggage.is_empty() => Some(Arc::new(alloc, baggage)?),
            _ => None,
        };
        Ok(Context {
            span_context: self.span_context.clone()?,
            has_active_span: self.has_active_span,
            baggage: shared,
            no_baggage: Baggage::empty(),
            telemetry_suppressed: self.telemetry_suppressed,
        })
    }

    /// The baggage that is handed on, the empty one where there is none.
    pub fn baggage(&self) -> &Baggage
        ensures { result.now ≡ self.now.baggage }
    {
        match &self.baggage {
            Some(baggage) => baggage,
            None => &self.no_baggage,
        }
    }

    /// The context in which no telemetry is recorded. `AllocError` as at a clone.
    pub fn with_telemetry_suppressed(&self) -> Result<Context, AllocError>
        ensures ok { IfOk result (λ cx. cx ≡ record self.now { telemetry_suppressed = true }) }
        ensures free { SharesNothing self.now → IsOk result }
    {
        let mut cx = self.clone()?;
        cx.telemetry_suppressed = true;
        Ok(cx)
    }

    /// Whether no telemetry is to be recorded in this context, so that spans started in it record nothing.
    pub fn is_telemetry_suppressed(&self) -> bool
        ensures { result ≡ self.now.telemetry_suppressed }
    {
        self.telemetry_suppressed
    }
}

impl Clone for Context {
    ghost use Rattle.std.specs.Prelude.{◌≡◌};
    ghost use Rattle.opentelemetry.specs.PlainContexts.{SharesNothing};

    ghost is_clone = { λ cx copy. copy ≡ cx };

    ghost is_infallible = { SharesNothing };

    /// A clone shares the trace state and the baggage. Where there is neither it takes no memory.
    fn clone(&self) -> Result<Context, AllocError> {
        Ok(Context {
            span_context: self.span_context.clone()?,
            has_active_span: self.has_active_span,
            baggage: share(&self.baggage)?,
            no_baggage: Baggage::empty(),
            telemetry_suppressed: self.telemetry_suppressed,
        })
    }
}

/// The same baggage once more. The empty one is not shared, and takes no memory.
fn share(baggage: &Option<Arc<Baggage>>) -> Result<Option<Arc<Baggage>>, AllocError>
    ensures ok { IfOk result (λ copy. shared_baggage copy ≡ shared_baggage baggage.now) }
    ensures free { shared_baggage baggage.now ≡ [] → IsOk result }
{
    match baggage {
        Some(shared) if !shared.is_empty() => Ok(Some(shared.clone()?)),
        _ => Ok(None),
    }
}
