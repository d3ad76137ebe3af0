//! What a session keeps of a span once that is over: who it was, for its children, its headers and links to it.

ghost use Rattle.std.specs.Prelude.{◌≡◌, IfOk};
ghost use Rattle.otel_sampling.specs.declared.trace.span_limit.SpanLimits.{SpanLimits};
ghost use Rattle.otel_trace_session.specs.Ended.{ended_identity};

use opentelemetry::trace::SpanContext;
use otel_pipeline::trace::Span;
use std::alloc::{AllocError, Global};
use std::marker::{Model, PhantomData};

/// Limits that only proofs read. It takes no memory, and is made of nothing.
#[derive(Drop)]
pub(crate) struct LimitsNote {
    of: PhantomData<u8>,
    pub ghost limits: { SpanLimits },
}

impl Model for LimitsNote {
    ghost use Rattle.std.specs.Borrow.{ftrue};

    ghost also_owns = { λ _. ftrue };
}

impl LimitsNote {
    // Of any limits: the proof of its caller says which.
    fn of<X>(_one: &X) -> LimitsNote
        ghost noted: { SpanLimits }
        ensures { result.limits ≡ noted }
    {
        LimitsNote { of: PhantomData }
    }
}

/// Who a span was, in a block of its own, so that a map of many moves lightly.
#[derive(Drop)]
pub(crate) struct EndedSpan {
    context: Box<SpanContext>,
    limits: LimitsNote,
}

impl Model for EndedSpan {
    ghost use Rattle.otel_trace_session.specs.Ended.{EndedIdentity};

    ghost Value = { EndedIdentity };

    ghost view = { λ a. record { span_context = a.context.value; limits = a.limits.limits } };
}

const _: () = prove!(size_of::<EndedSpan>() == size_of::<usize>());

impl EndedSpan {
    /// Who a span is. It may be over or not.
    pub(crate) fn of(alloc: Global, span: &Span) -> Result<EndedSpan, AllocError>
        ensures { IfOk result (λ ended. ended ≡ ended_identity span.now) }
    {
        let context = Box::new(alloc, span.span_context().clone()?)?;
        Ok(EndedSpan {
            context,
            limits: LimitsNote::of(span),
        })
    }

    pub(crate) fn span_context(&self) -> &SpanContext
        ensures { result.now ≡ self.now.span_context }
    {
        &self.context
    }
}
