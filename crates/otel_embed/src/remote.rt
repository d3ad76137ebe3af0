//! Spans between processes: a start under the span of another process, links to such, and headers.

ghost use Rattle.std.specs.Prelude.{◌≡◌, ◌<◌, IfOk, OnErr, OnOk, Some, is_some, string_bytes};
ghost use Rattle.opentelemetry.specs.Plain.{PlainContext};
ghost use Rattle.opentelemetry.specs.PlainContexts.{current_span_context};
ghost use Rattle.otel_embed.specs.Headers.{IsContextOf, plain_headers};
ghost use Rattle.otel_embed.specs.Keys.{span_at};
ghost use Rattle.otel_embed.specs.Pipelines.{LinksTo, LinksToRemote, SetsHeadersOf, Stays};
ghost use Rattle.otel_embed.specs.Starts.{RefusesIn, StartsIn};
ghost use Rattle.otel_embed.specs.Pipelines.{taken};
ghost use Rattle.otel_embed.specs.Starts.{asked_start};

use crate::error::PipelineError;
use crate::headers::inject;
use crate::host_headers::{HostHeaders, host_context};
use crate::pipeline_of::{HostStart, PipelineOf};
use opentelemetry::propagation::Injector;
use opentelemetry::trace::{Link, SpanContext};
use otel_pipeline::trace::{KeepsBatches, Provides, SpanEdit};
use otel_sampling::trace::{GivesIds, ShouldSample};
use std::alloc::{AllocError, Global};

impl<P: KeepsBatches, S: ShouldSample, G: GivesIds> PipelineOf<P, S, G> {
    /// Starts a span as a child of the span of another process, which headers name, and with the baggage that they say.
    /// Where they name none it is a root. It has the attributes that were gathered.
    pub(crate) fn start_from(
        &mut self,
        start: HostStart,
        headers: HostHeaders<'_>,
        name: String,
    ) -> Result<u64, PipelineError>
        ensures ok { IfOk result (λ key. StartsIn ⟦<PipelineOf<P, S, G> as Provides>⟧.calls
            (IsContextOf (plain_headers headers.entry)) self.old
            (asked_start start.tracer start.kind start.moment.0 (string_bytes name)) key self.new) }
        ensures err { OnErr result (RefusesIn ⟦<PipelineOf<P, S, G> as Provides>⟧.calls self.old self.new) }
    {
        let attributes = self.take_gathered();
        let cx = host_context(self.alloc, headers)?;
        self.start_in(start, cx, name, attributes)
    }

    /// Adds a link to another open span. It has the attributes that were gathered.
    pub fn add_link(&mut self, span: u64, linked: u64) -> Result<(), PipelineError>
        ensures ok { OnOk result (LinksTo self.old span linked self.new) }
        ensures err { OnErr result (Stays (taken self.old) self.new) }
    {
        let attributes = self.take_gathered();
        let target = self.spans.get(linked)?.span.span_context().clone()?;
        self.change(span, SpanEdit::AddLink(Link::new(target, attributes, 0)))
    }

    /// Adds a link to the span of another process, which headers name; `BadArgument` where they name none. It has the
    /// attributes that were gathered.
    pub fn add_remote_link(
        &mut self,
        span: u64,
        headers: HostHeaders<'_>,
    ) -> Result<(), PipelineError>
        ensures ok { OnOk result (LinksToRemote self.old span (plain_headers headers.entry) self.new) }
        ensures err { OnErr result (Stays (taken self.old) self.new) }
    {
        let attributes = self.take_gathered();
        let target = named_span(self.alloc, headers)?;
        self.change(span, SpanEdit::AddLink(Link::new(target, attributes, 0)))
    }

    /// Who the span of a key is.
    pub(crate) fn span_context(&self, span: u64) -> Result<&SpanContext, PipelineError>
        ensures { IfOk result (λ context. (found : _) × (span_at self.now.spans span ≡ Some found)
            × (context.now ≡ found.span.span_context)) }
    {
        Ok(self.spans.get(span)?.span.span_context())
    }

    /// Whether the span of a key records what it is told.
    pub(crate) fn is_recording(&self, span: u64) -> Result<bool, PipelineError>
        ensures { IfOk result (λ answer. (found : _) × (span_at self.now.spans span ≡ Some found)
            × (answer ≡ is_some found.span.recorded)) }
    {
        Ok(self.spans.get(span)?.span.is_recording())
    }

    /// Sets the headers that hand the span of a key on to another process, with the baggage that it was started with.
    /// After an error some may be set.
    pub(crate) fn inject<I: Injector>(
        &self,
        span: u64,
        headers: &mut I,
    ) -> Result<(), PipelineError>
        ensures { OnOk result (SetsHeadersOf self.now span (I.texts headers.old) (I.texts headers.new)) }
    {
        let cx = self.spans.get(span)?.active_context()?;
        let injected = inject(self.alloc, &cx, headers);
        drop(cx);
        Ok(injected?)
    }
}

/// The span that headers name; `BadArgument` where they name none.
fn named_span(alloc: Global, headers: HostHeaders<'_>) -> Result<SpanContext, PipelineError>
    ensures { IfOk result (λ named. (cx : PlainContext) × IsContextOf (plain_headers headers.entry) cx
        × (0 < named.trace_id) × (0 < named.span_id) × (named ≡ current_span_context cx)) }
{
    let cx = host_context(alloc, headers)?;
    let named: Result<SpanContext, AllocError> = cx.span_context().clone();
    drop(cx);
    let named = named?;
    if named.is_valid() {
        Ok(named)
    } else {
        drop(named);
        Err(PipelineError::BadArgument)
    }
}
