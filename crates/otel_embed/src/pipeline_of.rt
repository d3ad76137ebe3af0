//! A pipeline over any one kind of processor, sampler and source of ids: its provider, its tracers and open spans by
//! numbers, the attributes that were gathered for what comes next, and the lines that were not handed out yet.

ghost use Rattle.std.specs.Prelude.{◌≡◌, ◌++◌, ◌∷◌, [], IfErr, IfOk, IsOk, OnErr, OnOk};
ghost use Rattle.std.specs.Prelude.{None, Some, map, slice_get};
ghost use Rattle.std.specs.Prelude.{string_bytes};
ghost use Rattle.otel_embed.specs.Keys.{IsRefusedAt, OpenedSpan, span_at};
ghost use Rattle.otel_pipeline.specs.SpanHistory.{set_attribute};
ghost use Rattle.otel_embed.specs.Pipelines.{Abandons, AddsTracer, EditsSpan, EndNeedsNone, EndsSpan, Stays, gone_on, new_pipeline, taken};
ghost use Rattle.otel_embed.specs.Starts.{IsContextUnder, RefusesIn, StartsIn, asked_start};

use crate::changes_span::{Attributes, ChangesSpan};
use crate::error::PipelineError;
use crate::held_lines::HeldLines;
use crate::open_spans::OpenSpans;
use opentelemetry::trace::{SpanBuilder, SpanKind};
use opentelemetry::{Context, InstrumentationScope, KeyValue, Moment};
use otel_pipeline::trace::{
    CloseReport, CountsLeftSpans, KeepsBatches, ProviderOf, Provides, SdkTracer,
};
use otel_resource::resource::Resource;
use otel_sampling::trace::{GivesIds, ShouldSample};
use std::alloc::Global;
use std::marker::Model;
use std::mem;

/// A pipeline. It must be spent by `close`.
pub struct PipelineOf<P, S, G> {
    pub(crate) alloc: Global,
    pub(crate) provider: ProviderOf<P, S, G>,
    pub(crate) resource: Resource,
    pub(crate) lines: HeldLines,
    pub(crate) tracers: Vec<SdkTracer>,
    pub(crate) spans: OpenSpans,
    pub(crate) gathered: Vec<KeyValue>,
    // How many spans the processor refused when memory ran out.
    pub(crate) refusals: u64,
}

impl<P, S, G> Model for PipelineOf<P, S, G> {
    ghost use Rattle.std.specs.Coded.{codes};
    ghost use Rattle.otel_resource.specs.ResourceCode.{resource_code};
    ghost use Rattle.otel_embed.specs.Pipelines.{PipelineState};

    ghost Value = { PipelineState P S G };

    ghost coded = { Prim.hlevel (codes, resource_code) };

    ghost view = { λ a. record {
      flow = record { provider = a.provider; resource = a.resource; lines = a.lines };
      scopes = a.tracers.items;
      spans = a.spans;
      gathered = a.gathered.items;
      refusals = a.refusals;
    } };
}

impl<P: KeepsBatches, S: ShouldSample, G: GivesIds> Provides for PipelineOf<P, S, G> {
    type Processor = P;

    type Sampler = S;

    type Ids = G;

    ghost calls = { ⟦<ProviderOf<P, S, G> as Provides>⟧.calls };
}

/// How a span of a host starts.
#[derive(Clone, Copy, Debug)]
pub struct HostStart {
    /// The number of its tracer.
    pub tracer: u64,
    pub kind: SpanKind,
    /// Nanoseconds since 1970.
    pub moment: Moment,
}

/// The tracer of a number.
fn tracer_at(tracers: &[SdkTracer], number: u64) -> Result<&SdkTracer, PipelineError>
    ensures { IfOk result (λ tracer. slice_get tracers.now number ≡ Some tracer.now) }
{
    match usize::try_from(number) {
        Ok(number) => match tracers.get(number) {
            Some(tracer) => Ok(tracer),
            None => Err(PipelineError::NoSuchTracer),
        },
        Err(_) => Err(PipelineError::NoSuchTracer),
    }
}

impl<P, S, G> PipelineOf<P, S, G> {
    /// A pipeline over a provider, whose spans are of this resource, with these tracers by their numbers from 0 on. No
    /// span is open. It needs no memory.
    pub fn over(
        alloc: Global,
        provider: ProviderOf<P, S, G>,
        resource: Resource,
        tracers: Vec<SdkTracer>,
    ) -> PipelineOf<P, S, G>
        ensures { result ≡ new_pipeline provider resource tracers.items }
    {
        PipelineOf {
            alloc,
            provider,
            resource,
            lines: HeldLines::new(alloc),
            tracers,
            spans: OpenSpans::new(alloc),
            gathered: Vec::new(alloc),
            refusals: 0,
        }
    }
}

impl<P: CountsLeftSpans, S: Drop, G: Drop> PipelineOf<P, S, G> {
    /// Goes on in the child of a fork as another that was opened anew, with its own tracers by their numbers, and with
    /// keys that it did not use. What it was before is spent: the parent has it too.
    pub(crate) fn go_on_as(&mut self, fresh: PipelineOf<P, S, G>)
        ensures { self.new ≡ gone_on self.old fresh }
    {
        let mut fresh = fresh;
        mem::swap(&mut self.tracers, &mut fresh.tracers);
        fresh.spans.go_on_after(&self.spans);
        let _report = mem::replace(self, fresh).close();
    }

    /// Spends the pipeline: its spans are abandoned, and its provider is closed.
    pub fn close(self) -> CloseReport {
        let PipelineOf {
            alloc: _,
            provider,
            resource,
            lines,
            tracers,
            spans,
            gathered,
            refusals: _,
        } = self;
        drop(spans);
        drop(tracers);
        drop(gathered);
        drop(lines);
        drop(resource);
        provider.close()
    }
}

impl<P: KeepsBatches, S: ShouldSample, G: GivesIds> PipelineOf<P, S, G> {
    /// A tracer for a library, by its number.
    pub(crate) fn add_tracer(&mut self, scope: InstrumentationScope) -> Result<u64, PipelineError>
        ensures ok { IfOk result (λ number. AddsTracer self.old scope number self.new) }
        ensures err { OnErr result (self.new ≡ self.old) }
    {
        let number = self.tracers.len();
        self.tracers.push(self.provider.tracer_with_scope(scope))?;
        Ok(number as u64)
    }

    /// Gathers an attribute for what comes next.
    pub(crate) fn gather_attribute(&mut self, attribute: KeyValue) -> Result<(), PipelineError>
        ensures ok { OnOk result (self.new ≡ record self.old { gathered = self.old.gathered ++ attribute ∷ [] }) }
        ensures err { OnErr result (self.new ≡ self.old) }
    {
        self.gathered.push(attribute)?;
        Ok(())
    }

    /// Hands out the attributes that were gathered.
    pub(crate) fn take_gathered(&mut self) -> Vec<KeyValue>
        ensures taken { result.items ≡ self.old.gathered }
        ensures rest { self.new ≡ taken self.old }
    {
        mem::replace(&mut self.gathered, Vec::new(self.alloc))
    }

    /// Exchanges the attributes that were gathered for others.
    pub(crate) fn swap_gathered(&mut self, others: &mut Vec<KeyValue>)
        ensures here { self.new ≡ record self.old { gathered = others.old.items } }
        ensures there { others.new.items ≡ self.old.gathered }
    {
        mem::swap(&mut self.gathered, others);
    }

    /// The context in which a child of the span of a key starts; for 0 that of a root.
    fn context_under(&self, parent: u64) -> Result<Context, PipelineError>
        ensures { IfOk result (IsContextUnder self.now.spans parent) }
    {
        if parent == 0 {
            return Ok(Context::new());
        }
        Ok(self.spans.get(parent)?.active_context()?)
    }

    /// Changes the span of a key. Nothing else happens.
    pub(crate) fn change<E: ChangesSpan>(
        &mut self,
        span: u64,
        change: E,
    ) -> Result<(), PipelineError>
        ensures ok { OnOk result (EditsSpan self.old span (E.edits change) self.new) }
        ensures err { OnErr result (Stays self.old self.new) }
        ensures why { IfErr result (IsRefusedAt self.old.spans span) }
        ensures free { (found : OpenedSpan) → span_at self.old.spans span ≡ Some found
            → E.needs_none change found.span → IsOk result }
    {
        self.spans.change(span, change)
    }

    /// Sets the attributes that were gathered.
    pub fn set_attributes(&mut self, span: u64) -> Result<(), PipelineError>
        ensures ok { OnOk result (EditsSpan (taken self.old) span (map set_attribute self.old.gathered) self.new) }
        ensures err { OnErr result (Stays (taken self.old) self.new) }
    {
        let attributes = self.take_gathered();
        self.change(span, Attributes(attributes))
    }

    /// Abandons the span of a key: nothing is delivered.
    pub fn abandon(&mut self, span: u64) -> Result<(), PipelineError>
        ensures ok { OnOk result (Abandons self.old span self.new) }
        ensures err { OnErr result (Stays self.old self.new) }
        ensures why { IfErr result (λ error. (error ≡ PipelineError.NoSuchSpan)
            × (span_at self.old.spans span ≡ None)) }
    {
        self.spans.abandon(span)
    }

    /// Starts a span under the span of a key, or a root where that is 0, and answers its key. It has the attributes
    /// that were gathered.
    pub(crate) fn start_under(
        &mut self,
        start: HostStart,
        parent: u64,
        name: String,
    ) -> Result<u64, PipelineError>
        ensures ok { IfOk result (λ key. StartsIn ⟦<PipelineOf<P, S, G> as Provides>⟧.calls
            (IsContextUnder self.old.spans parent) self.old
            (asked_start start.tracer start.kind start.moment.0 (string_bytes name)) key self.new) }
        ensures err { OnErr result (RefusesIn ⟦<PipelineOf<P, S, G> as Provides>⟧.calls self.old self.new) }
    {
        let attributes = self.take_gathered();
        let cx = self.context_under(parent)?;
        self.start_in(start, cx, name, attributes)
    }

    /// Starts a span in a context.
    pub(crate) fn start_in(
        &mut self,
        start: HostStart,
        cx: Context,
        name: String,
        attributes: Vec<KeyValue>,
    ) -> Result<u64, PipelineError>
        ensures ok { IfOk result (λ key. StartsIn ⟦<PipelineOf<P, S, G> as Provides>⟧.calls (λ found. found ≡ cx)
            (record self.old { gathered = attributes.items })
            (asked_start start.tracer start.kind start.moment.0 (string_bytes name)) key (taken self.new)) }
        ensures err { OnErr result (RefusesIn ⟦<PipelineOf<P, S, G> as Provides>⟧.calls self.old (taken self.new)) }
        ensures gathered { self.new.gathered ≡ self.old.gathered }
    {
        let tracer = match tracer_at(&self.tracers, start.tracer) {
            Ok(tracer) => tracer,
            Err(error) => {
                drop(attributes);
                drop(cx);
                return Err(error);
            }
        };
        let builder = SpanBuilder::from_name(name)
            .with_kind(start.kind)
            .with_attributes(attributes);
        self.spans
            .start(builder, cx, tracer, &mut self.provider, start.moment)
    }

    /// Ends a span, whose key names none from then on.
    pub fn end(&mut self, span: u64, moment: Moment) -> Result<(), PipelineError>
        ensures ok { OnOk result (EndsSpan P.SpanProcessor self.old span moment.0 self.new) }
        ensures err { OnErr result (Stays self.old self.new) }
        ensures why { IfErr result (IsRefusedAt self.old.spans span) }
        ensures free { EndNeedsNone self.old span → IsOk result }
    {
        let refused = self.spans.end(span, &mut self.provider, moment)?;
        self.refusals = self.refusals.saturating_add(refused as u64);
        Ok(())
    }
}
