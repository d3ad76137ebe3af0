//! The tracer of a library: it starts spans under the library's scope (OpenTelemetry specification, "Tracer").

ghost use Rattle.std.specs.Prelude.{◌≡◌, ◌||◌, [], IfOk, IsOk, Ok, OnErr, string_bytes, true, unwrap_or};
ghost use Rattle.std.specs.Option.{option_map};
ghost use Rattle.opentelemetry.specs.PlainContexts.{root_cx};
ghost use Rattle.opentelemetry.specs.PlainSpanBuilder.{named_builder};
ghost use Rattle.otel_sampling.specs.Sampling.{added_attributes};
ghost use Rattle.otel_pipeline.specs.Provider.{unstarted_context};
ghost use Rattle.otel_pipeline.specs.StartRequest.{start_flags, start_of, start_question, start_request};
ghost use Rattle.otel_pipeline.specs.InSpan.{active_in};
ghost use Rattle.otel_pipeline.specs.Starting.{AnswersStart, DrawsAtMost, Prepares, RefusesStart, StartIsInfallible};
ghost use Rattle.otel_pipeline.specs.Starting.{TellsStart};
ghost use Rattle.otel_pipeline.specs.SpanHistory.{data_of, recording};

use super::in_span::context_inside;
use super::limits::{attributes_within, events_within, links_within};
use crate::trace::{ProviderOf, Recorded, Span, SpanProcessor};
use opentelemetry::trace::{SpanBuilder, SpanContext, SpanKind, Status};
use opentelemetry::{Context, InstrumentationScope, KeyValue, Moment, TraceFlags, TraceId};
use otel_export::trace::SpanData;
use otel_sampling::trace::{GivesIds, SamplingDecision, SamplingResult, ShouldSample, SpanLimits};
use std::alloc::{AllocError, Global};
use std::marker::Model;

/// Starts spans.
#[derive(Debug, Drop)]
pub struct SdkTracer {
    scope: InstrumentationScope,
    /// The context in which no span is active.
    root: Context,
}

impl Model for SdkTracer {
    ghost use Rattle.std.specs.Prelude.{◌≡◌};
    ghost use Rattle.opentelemetry.specs.Plain.{PlainScope};
    ghost use Rattle.opentelemetry.specs.PlainContexts.{root_cx};

    ghost Value = { PlainScope };

    ghost view = { λ tracer. tracer.scope };

    ghost invariant = { λ tracer. tracer.root ≡ root_cx };
}

impl SdkTracer {
    pub(crate) fn new(scope: InstrumentationScope) -> SdkTracer
        ensures { result ≡ scope }
    {
        SdkTracer {
            scope,
            root: Context::new(),
        }
    }

    /// A builder of a span of this name, to be filled and handed to `build_with_context`.
    pub fn span_builder(&self, name: String) -> SpanBuilder
        ensures { result ≡ named_builder (string_bytes name) }
    {
        SpanBuilder::from_name(name)
    }

    /// Starts a root span at this moment: in a context where no span is active and nothing is suppressed. All else is
    /// as with `build_with_context`.
    pub fn start<P: SpanProcessor, S: ShouldSample, G: GivesIds>(
        &self,
        name: String,
        provider: &mut ProviderOf<P, S, G>,
        now: Moment,
    ) -> Result<Span, AllocError>
        ensures answers { AnswersStart P.SpanProcessor S.ShouldSample G.GivesIds provider.old
            (start_request self.now (named_builder (string_bytes name)) root_cx now.0) result provider.new }
        ensures free { StartIsInfallible S.ShouldSample provider.old
            (start_request self.now (named_builder (string_bytes name)) root_cx now.0) → IsOk result }
    {
        self.build_with_context(self.span_builder(name), &self.root, provider, now)
    }

    /// Starts a span of this name in a context, as `build_with_context` does.
    pub fn start_with_context<P: SpanProcessor, S: ShouldSample, G: GivesIds>(
        &self,
        name: String,
        cx: &Context,
        provider: &mut ProviderOf<P, S, G>,
        now: Moment,
    ) -> Result<Span, AllocError>
        ensures answers { AnswersStart P.SpanProcessor S.ShouldSample G.GivesIds provider.old
            (start_request self.now (named_builder (string_bytes name)) cx.now now.0) result provider.new }
        ensures free { StartIsInfallible S.ShouldSample provider.old
            (start_request self.now (named_builder (string_bytes name)) cx.now now.0) → IsOk result }
    {
        self.build_with_context(self.span_builder(name), cx, provider, now)
    }

    /// Starts a span in a context, as a child of the one that is active there. The provider decides alone: where it is
    /// shut, or telemetry is suppressed in the context, the span does not record and has the empty span context, or at
    /// a provider that was disabled the span context of its parent, which so goes on to the next service. Else its
    /// sampler is asked, and each processor is told of a span that records. What the builder leaves open the tracer
    /// fills in: the kind is internal, and the span starts now (nanoseconds since 1970). Lists and values are cut
    /// at the provider's limits. On an error no processor was asked, but ids may have been drawn (OpenTelemetry
    /// specification, "Span Creation").
    pub fn build_with_context<P: SpanProcessor, S: ShouldSample, G: GivesIds>(
        &self,
        builder: SpanBuilder,
        cx: &Context,
        provider: &mut ProviderOf<P, S, G>,
        now: Moment,
    ) -> Result<Span, AllocError>
        ensures answers { AnswersStart P.SpanProcessor S.ShouldSample G.GivesIds provider.old
            (start_request self.now builder cx.now now.0) result provider.new }
        ensures free { StartIsInfallible S.ShouldSample provider.old
            (start_request self.now builder cx.now now.0) → IsOk result }
    {
        let mut span = self.prepare(builder, cx, provider, now)?;
        tell_prepared(&mut span, cx, provider);
        Ok(span)
    }

    /// Starts a span as `build_with_context` does, and makes the context in which it is active, with all else that is in
    /// the other one. What needs memory is taken first: on an error no processor was told of the span, and ids were drawn
    /// at most.
    pub fn start_inside<P: SpanProcessor, S: ShouldSample, G: GivesIds>(
        &self,
        builder: SpanBuilder,
        cx: &Context,
        provider: &mut ProviderOf<P, S, G>,
        now: Moment,
    ) -> Result<(Span, Context), AllocError>
        ensures ok { IfOk result (λ started. AnswersStart P.SpanProcessor S.ShouldSample G.GivesIds provider.old
            (start_request self.now builder cx.now now.0) (Ok started.0) provider.new
            × (started.1 ≡ active_in cx.now started.0)) }
        ensures err { OnErr result (DrawsAtMost G.GivesIds provider.old
            (start_request self.now builder cx.now now.0) provider.new) }
    {
        let mut span = self.prepare(builder, cx, provider, now)?;
        let Ok(inside) = context_inside(cx, &span) else {
            span.abandon();
            return Err(AllocError);
        };
        tell_prepared(&mut span, cx, provider);
        Ok((span, inside))
    }

    /// The span of a start, of which no processor has been told yet.
    fn prepare<P: SpanProcessor, S: ShouldSample, G: GivesIds>(
        &self,
        builder: SpanBuilder,
        cx: &Context,
        provider: &mut ProviderOf<P, S, G>,
        now: Moment,
    ) -> Result<Span, AllocError>
        ensures ok { IfOk result (λ span. Prepares S.ShouldSample G.GivesIds provider.old
            (start_request self.now builder cx.now now.0) span provider.new) }
        ensures err { OnErr result (RefusesStart S.ShouldSample G.GivesIds provider.old
            (start_request self.now builder cx.now now.0) provider.new) }
        ensures free { StartIsInfallible S.ShouldSample provider.old
            (start_request self.now builder cx.now now.0) → IsOk result }
    {
        let span_limits = provider.span_limits();
        if starts_nothing(provider, cx) {
            let alloc = provider.allocator();
            let context = unstarted_context(provider, cx)?;
            return Ok(Span::not_recording(alloc, context, span_limits));
        }
        let (trace_id, span_id) = provider.draw_ids(cx, &builder, now);
        let SamplingResult {
            decision,
            attributes,
            trace_state,
        } = ask(provider.sampler(), cx, trace_id, &builder)?;
        let parent = cx.span_context();
        let flags = start_flags(parent, decision);
        let span_context = SpanContext::new(trace_id, span_id, flags, false, trace_state);
        if let SamplingDecision::Drop = decision {
            let alloc = provider.allocator();
            return Ok(Span::not_recording(alloc, span_context, span_limits));
        }
        begin(
            provider.take_room(),
            &self.scope,
            builder,
            parent,
            attributes,
            span_context,
            now,
            span_limits,
        )
    }
}

impl Clone for SdkTracer {
    ghost use Rattle.std.specs.Prelude.{◌≡◌};

    ghost is_clone = { λ tracer copy. copy ≡ tracer };

    /// Both share the scope.
    fn clone(&self) -> Result<SdkTracer, AllocError> {
        Ok(SdkTracer::new(self.scope.clone()?))
    }
}

/// Tells each processor of a span that records; of another one none is told.
fn tell_prepared<P: SpanProcessor, S: Drop, G: Drop>(
    span: &mut Span,
    cx: &Context,
    provider: &mut ProviderOf<P, S, G>,
)
    ensures { TellsStart P.SpanProcessor cx.now span.old provider.old span.new provider.new }
{
    if span.is_recording() {
        provider.tell_start(span, cx);
    }
}

/// Whether a start makes a span that records nothing, and asks nobody.
fn starts_nothing<P, S, G>(provider: &ProviderOf<P, S, G>, cx: &Context) -> bool
    ensures { result ≡ (provider.now.is_shut || cx.now.telemetry_suppressed) }
{
    provider.is_shut() || cx.is_telemetry_suppressed()
}

/// The span context of a span that does not start: a disabled provider hands that of the parent on.
fn unstarted_context<P, S, G>(
    provider: &ProviderOf<P, S, G>,
    cx: &Context,
) -> Result<SpanContext, AllocError>
    ensures context { IfOk result (λ context. context ≡ unstarted_context provider.now cx.now) }
    ensures disabled { OnErr result (provider.now.is_disabled ≡ true) }
    ensures free { (unstarted_context provider.now cx.now).trace_state ≡ [] → IsOk result }
{
    if provider.is_disabled() {
        cx.span_context().clone()
    } else {
        Ok(SpanContext::empty_context())
    }
}

/// What the sampler answers to a span that is to start in a context.
fn ask<S: ShouldSample>(
    sampler: &S,
    cx: &Context,
    trace_id: TraceId,
    builder: &SpanBuilder,
) -> Result<SamplingResult, AllocError>
    ensures answers { IfOk result (λ given.
        given ≡ S.answer sampler.now (start_question cx.now trace_id builder.now)) }
    ensures free { S.is_infallible sampler.now (start_question cx.now trace_id builder.now) → IsOk result }
{
    sampler.should_sample(
        Some(cx),
        trace_id,
        builder.name.as_str(),
        &builder.span_kind.unwrap_or(SpanKind::Internal),
        items_of(&builder.attributes),
        items_of(&builder.links),
    )
}

/// The items of a list, where there is one.
fn items_of<T>(list: &Option<Vec<T>>) -> &[T]
    ensures { result.now ≡ unwrap_or (option_map (λ items. items.items) list.now) [] }
{
    match list {
        Some(items) => items,
        None => &[],
    }
}

/// The flags of a new span by the sampler's decision.
fn start_flags(parent: &SpanContext, decision: SamplingDecision) -> TraceFlags
    ensures { result ≡ start_flags parent.now decision }
{
    match decision {
        SamplingDecision::Drop => TraceFlags::default(),
        SamplingDecision::RecordOnly => parent.trace_flags().with_sampled(false),
        SamplingDecision::RecordAndSample => parent.trace_flags().with_sampled(true),
    }
}

/// The span that records what its builder, the sampler and the tracer give it, in this room.
fn begin(
    room: Vec<SpanData>,
    scope: &InstrumentationScope,
    builder: SpanBuilder,
    parent: &SpanContext,
    added: Option<Vec<KeyValue>>,
    span_context: SpanContext,
    now: Moment,
    span_limits: SpanLimits,
) -> Result<Span, AllocError>
    requires { room.items ≡ [] }
    ensures { IfOk result (λ span. span ≡ recording
        (start_of scope.now builder parent.now now.0 span_limits span_context (added_attributes added)) []) }
{
    let alloc = *room.allocator();
    let data = data_of_start(
        alloc,
        scope,
        builder,
        parent,
        added,
        &span_context,
        now,
        span_limits,
    )?;
    let recorded = Recorded::new(room, data)?;
    Ok(Span::recording(span_context, recorded, span_limits))
}

/// What a span records at its start: the lists that its builder and the sampler give it, cut at the limits.
fn data_of_start(
    alloc: Global,
    scope: &InstrumentationScope,
    builder: SpanBuilder,
    parent: &SpanContext,
    added: Option<Vec<KeyValue>>,
    span_context: &SpanContext,
    now: Moment,
    span_limits: SpanLimits,
) -> Result<SpanData, AllocError>
    ensures { let start = start_of scope.now builder parent.now now.0 span_limits span_context.now
        (added_attributes added) in
        IfOk result (λ recorded. recorded ≡ data_of start [] start.start_time) }
{
    let SpanBuilder {
        name,
        span_kind,
        start_time,
        attributes,
        events,
        links,
    } = builder;
    let (attributes, dropped_attributes_count) = attributes_within(
        alloc,
        attributes,
        added,
        &span_limits,
    )?;
    let instrumentation_scope = scope.clone()?;
    let recorded_context = span_context.clone()?;
    let start_time = start_time.unwrap_or(now);
    Ok(SpanData {
        span_context: recorded_context,
        parent_span_id: parent.span_id(),
        parent_span_is_remote: parent.is_valid() && parent.is_remote(),
        span_kind: span_kind.unwrap_or(SpanKind::Internal),
        name,
        start_time,
        end_time: start_time,
        attributes,
        dropped_attributes_count,
        events: events_within(alloc, events, span_limits),
        links: links_within(alloc, links, span_limits),
        status: Status::Unset,
        instrumentation_scope,
    })
}
