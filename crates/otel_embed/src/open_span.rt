//! A span that a host holds by its key, with the context that it was started in: a baggage there goes on to children and
//! to other processes. A span has to be spent: one that is left is abandoned.

ghost use Rattle.std.specs.Prelude.{◌≡◌, IfOk, IsOk, OnErr, OnOk};
ghost use Rattle.otel_pipeline.specs.Ending.{EndIsInfallible, Ends};
ghost use Rattle.otel_pipeline.specs.SpanHistory.{after};
ghost use Rattle.otel_embed.specs.Keys.{context_of};

use crate::changes_span::ChangesSpan;
use opentelemetry::{Context, Moment, SpanId, TraceId};
use otel_pipeline::trace::{ProviderOf, Span, SpanProcessor, context_inside};
use std::alloc::AllocError;
use std::marker::Model;

/// An open span.
pub(crate) struct OpenSpan {
    pub(crate) span: Span,
    pub(crate) cx: Context,
}

impl Model for OpenSpan {
    ghost use Rattle.otel_embed.specs.Keys.{OpenedSpan};

    ghost Value = { OpenedSpan };

    ghost view = { λ a. record { span = a.span; cx = a.cx } };
}

impl Drop for OpenSpan {
    fn drop(self) {
        let OpenSpan { span, cx } = self;
        drop(cx);
        span.abandon();
    }
}

impl OpenSpan {
    /// The context in which the span is active, with all else that the context has that it was started in. A span that
    /// nobody knows, as one of a pipeline that is shut down, passes on the span that was active there.
    pub(crate) fn active_context(&self) -> Result<Context, AllocError>
        ensures { IfOk result (λ cx. cx ≡ context_of self.now) }
    {
        let span_context = self.span.span_context();
        if span_context.trace_id() == TraceId::INVALID
            || span_context.span_id() == SpanId::INVALID
        {
            return self.cx.clone();
        }
        context_inside(&self.cx, &self.span)
    }

    /// Makes a change of the span.
    pub(crate) fn change<E: ChangesSpan>(&mut self, change: E) -> Result<(), AllocError>
        ensures ok { OnOk result (self.new ≡ record self.old { span = after (E.edits change) self.old.span }) }
        ensures err { OnErr result (self.new ≡ self.old) }
        ensures free { E.needs_none change self.old.span → IsOk result }
    {
        change.apply(&mut self.span)
    }

    /// Ends the span. The answer is how many processors refused what it recorded.
    pub(crate) fn end<P: SpanProcessor, S: Drop, G: Drop>(
        &mut self,
        provider: &mut ProviderOf<P, S, G>,
        moment: Moment,
    ) -> Result<usize, AllocError>
        ensures ok { IfOk result (λ refused.
            Ends P.SpanProcessor provider.old self.old.span moment.0 refused provider.new) }
        ensures err { OnErr result ((self.new ≡ self.old) × (provider.new ≡ provider.old)) }
        ensures free { EndIsInfallible self.old.span provider.old → IsOk result }
    {
        self.span.end_with_timestamp(provider, moment)
    }
}
