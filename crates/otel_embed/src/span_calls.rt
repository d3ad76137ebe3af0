//! The calls of a pipeline that take what a host hands in, in the order of a span's life. Texts are bytes.

ghost use Rattle.std.specs.Prelude.{◌≡◌, ◌≤◌, ◌<◌, ◌++◌, ◌∷◌, [], Err, IfOk, IsErr, IsOk, IsSome, OnErr, OnOk};
ghost use Rattle.std.specs.Prelude.{string_bytes};
ghost use Rattle.otel_embed.specs.Keys.{span_at};
ghost use Rattle.opentelemetry.specs.Plain.{PlainStatus, PlainValue};
ghost use Rattle.opentelemetry.specs.declared.trace.span_kind.SpanKind.{SpanKind as TheKinds};
ghost use Rattle.otel_pipeline.specs.SpanEdits.{new_event};
ghost use Rattle.otel_pipeline.specs.Exceptions.{exception_event};
ghost use Rattle.otel_pipeline.specs.SpanHistory.{add_event, set_attribute, set_status, update_name};
ghost use Rattle.otel_embed.specs.Headers.{IsContextOf, plain_headers};
ghost use Rattle.otel_embed.specs.HostValues.{IsKind, IsStatus, IsValueOf, host_exception, host_scope};
ghost use Rattle.otel_embed.specs.Pipelines.{AddsTracer, EditsSpan, Identifies};
ghost use Rattle.otel_embed.specs.Starts.{IsContextUnder};
ghost use Rattle.otel_embed.specs.Pipelines.{SaysHeaders, Stays, taken};
ghost use Rattle.otel_embed.specs.Starts.{RefusesIn, StartsIn, asked_start};

use crate::changes_span::MetError;
use crate::error::PipelineError;
use crate::host_headers::{HostHeaders, lines_of};
use crate::pipeline_of::{HostStart, PipelineOf};
use crate::values::{HostValue, attribute_of, optional_text, status_of, text_of};
use opentelemetry::propagation::MapCarrier;
use opentelemetry::trace::{Event, SpanKind};
use opentelemetry::{InstrumentationScope, Moment};
use otel_pipeline::trace::{Exception, KeepsBatches, Provides, SpanEdit};
use otel_sampling::trace::{GivesIds, ShouldSample};
use std::alloc::Global;

/// Who a span is.
#[derive(Clone, Copy, Debug, PartialEq, Eq)]
pub struct SpanIdentity {
    pub trace_id: u128,
    pub span_id: u64,
    pub trace_flags: u8,
    /// Whether the span records what it is told.
    pub is_recording: bool,
}

/// The kind of a number, as the OpenTelemetry protocol counts them.
fn kind_of(number: u32) -> Result<SpanKind, PipelineError>
    ensures { IfOk result (IsKind number) }
{
    match number {
        1 => Ok(SpanKind::Internal),
        2 => Ok(SpanKind::Server),
        3 => Ok(SpanKind::Client),
        4 => Ok(SpanKind::Producer),
        5 => Ok(SpanKind::Consumer),
        _ => Err(PipelineError::BadArgument),
    }
}

/// The scope of a library. A version or a schema URL without bytes is none.
fn scope_of(
    alloc: Global,
    name: &[u8],
    version: &[u8],
    schema_url: &[u8],
) -> Result<InstrumentationScope, PipelineError>
    ensures { IfOk result (λ scope. scope ≡ host_scope name.now version.now schema_url.now) }
{
    let mut builder = InstrumentationScope::builder(alloc, text_of(alloc, name)?);
    if let Some(version) = optional_text(alloc, version)? {
        builder = builder.with_version(version);
    }
    if let Some(schema_url) = optional_text(alloc, schema_url)? {
        builder = builder.with_schema_url(schema_url);
    }
    Ok(builder.build()?)
}

/// An error that a host met. A type or a stack trace without bytes is none.
fn exception_of(
    alloc: Global,
    exception_type: &[u8],
    message: &[u8],
    stacktrace: &[u8],
) -> Result<Exception, PipelineError>
    ensures { IfOk result (λ made. made ≡ host_exception exception_type.now message.now stacktrace.now) }
{
    Ok(Exception {
        message: text_of(alloc, message)?,
        exception_type: optional_text(alloc, exception_type)?,
        stacktrace: optional_text(alloc, stacktrace)?,
    })
}

impl<P: KeepsBatches, S: ShouldSample, G: GivesIds> PipelineOf<P, S, G> {
    /// A tracer for a library, by its number. A version or a schema URL without bytes is none.
    pub fn tracer(
        &mut self,
        name: &[u8],
        version: &[u8],
        schema_url: &[u8],
    ) -> Result<u64, PipelineError>
        ensures ok { IfOk result (λ number.
            AddsTracer self.old (host_scope name.now version.now schema_url.now) number self.new) }
        ensures err { OnErr result (self.new ≡ self.old) }
    {
        let scope = scope_of(self.alloc, name, version, schema_url)?;
        self.add_tracer(scope)
    }

    /// Gathers an attribute for what comes next.
    pub fn gather(&mut self, key: &[u8], value: HostValue<'_>) -> Result<(), PipelineError>
        ensures ok { OnOk result ((made : PlainValue) × IsValueOf value.entry made × (self.new ≡ record self.old
            { gathered = self.old.gathered ++ record { key = key.now; value = made } ∷ [] })) }
        ensures err { OnErr result (self.new ≡ self.old) }
    {
        let attribute = attribute_of(self.alloc, key, value)?;
        self.gather_attribute(attribute)
    }

    /// Starts a span under the span of a key, or a root where that is 0. What was gathered is taken, whatever it
    /// answers.
    pub fn start(
        &mut self,
        tracer: u64,
        parent: u64,
        kind: u32,
        name: &[u8],
        moment: Moment,
    ) -> Result<u64, PipelineError>
        ensures ok { IfOk result (λ key. (asked : TheKinds) × IsKind kind asked
            × StartsIn ⟦<PipelineOf<P, S, G> as Provides>⟧.calls (IsContextUnder self.old.spans parent) self.old
            (asked_start tracer asked moment.0 name.now) key self.new) }
        ensures err { OnErr result (RefusesIn ⟦<PipelineOf<P, S, G> as Provides>⟧.calls self.old self.new) }
    {
        match self.asked_start(tracer, kind, name, moment) {
            Ok((start, name)) => self.start_under(start, parent, name),
            Err(error) => self.refuse(error),
        }
    }

    /// Starts a span under the span of another process.
    pub fn start_remote(
        &mut self,
        tracer: u64,
        headers: HostHeaders<'_>,
        kind: u32,
        name: &[u8],
        moment: Moment,
    ) -> Result<u64, PipelineError>
        ensures ok { IfOk result (λ key. (asked : TheKinds) × IsKind kind asked
            × StartsIn ⟦<PipelineOf<P, S, G> as Provides>⟧.calls (IsContextOf (plain_headers headers.entry)) self.old
            (asked_start tracer asked moment.0 name.now) key self.new) }
        ensures err { OnErr result (RefusesIn ⟦<PipelineOf<P, S, G> as Provides>⟧.calls self.old self.new) }
    {
        match self.asked_start(tracer, kind, name, moment) {
            Ok((start, name)) => self.start_from(start, headers, name),
            Err(error) => self.refuse(error),
        }
    }

    fn asked_start(
        &self,
        tracer: u64,
        kind: u32,
        name: &[u8],
        moment: Moment,
    ) -> Result<(HostStart, String), PipelineError>
        ensures { IfOk result (λ asked. (asked.0.tracer ≡ tracer) × IsKind kind asked.0.kind
            × (asked.0.moment.0 ≡ moment.0) × (string_bytes asked.1 ≡ name.now)) }
    {
        let start = HostStart {
            tracer,
            kind: kind_of(kind)?,
            moment,
        };
        Ok((start, text_of(self.alloc, name)?))
    }

    /// Takes what was gathered, and answers this error.
    fn refuse<T>(&mut self, error: PipelineError) -> Result<T, PipelineError>
        ensures gathered { self.new ≡ taken self.old }
        ensures err { IsErr result }
    {
        let _gathered = self.take_gathered();
        Err(error)
    }

    /// Who the span of a key is.
    pub fn identity(&self, span: u64) -> Result<SpanIdentity, PipelineError>
        ensures { IfOk result (Identifies self.now span) }
    {
        let context = self.span_context(span)?;
        Ok(SpanIdentity {
            trace_id: u128::from_be_bytes(context.trace_id().to_bytes()),
            span_id: u64::from_be_bytes(context.span_id().to_bytes()),
            trace_flags: context.trace_flags().to_u8(),
            is_recording: self.is_recording(span)?,
        })
    }

    /// Sets an attribute.
    pub fn set(&mut self, span: u64, key: &[u8], value: HostValue<'_>) -> Result<(), PipelineError>
        ensures ok { OnOk result ((made : PlainValue) × IsValueOf value.entry made × EditsSpan self.old span
            (set_attribute (record { key = key.now; value = made }) ∷ []) self.new) }
        ensures err { OnErr result (Stays self.old self.new) }
    {
        let attribute = attribute_of(self.alloc, key, value)?;
        self.change(span, SpanEdit::SetAttribute(attribute))
    }

    /// Adds an event, with the attributes that were gathered.
    pub fn add_event(&mut self, span: u64, name: &[u8], moment: Moment) -> Result<(), PipelineError>
        ensures ok { OnOk result (EditsSpan (taken self.old) span
            (add_event (new_event name.now moment.0 self.old.gathered) ∷ []) self.new) }
        ensures err { OnErr result (Stays (taken self.old) self.new) }
    {
        let attributes = self.take_gathered();
        let name = text_of(self.alloc, name)?;
        let event = Event::new(name, moment, attributes, 0);
        self.change(span, SpanEdit::AddEvent(event))
    }

    /// Records an error. A type or a stack trace without bytes is none.
    pub fn record_exception(
        &mut self,
        span: u64,
        exception_type: &[u8],
        message: &[u8],
        stacktrace: &[u8],
        moment: Moment,
    ) -> Result<(), PipelineError>
        ensures ok { OnOk result (EditsSpan self.old span (add_event
            (exception_event (host_exception exception_type.now message.now stacktrace.now) moment.0) ∷ []) self.new) }
        ensures err { OnErr result (Stays self.old self.new) }
    {
        let exception = exception_of(self.alloc, exception_type, message, stacktrace)?;
        let met = MetError {
            alloc: self.alloc,
            exception,
            moment,
        };
        self.change(span, met)
    }

    /// Says how the operation went: 0 unset, 1 well, 2 not, and only then with a description.
    pub fn set_status(
        &mut self,
        span: u64,
        code: u32,
        description: &[u8],
    ) -> Result<(), PipelineError>
        ensures ok { OnOk result ((status : PlainStatus) × IsStatus code description.now status
            × EditsSpan self.old span (set_status status ∷ []) self.new) }
        ensures err { OnErr result (Stays self.old self.new) }
        ensures free { code ≤ 1 → IsSome (span_at self.old.spans span) → IsOk result }
        ensures bad { 2 < code → result ≡ Err PipelineError.BadArgument }
    {
        let status = status_of(self.alloc, code, description)?;
        self.change(span, SpanEdit::SetStatus(status))
    }

    /// Gives the span another name.
    pub fn update_name(&mut self, span: u64, name: &[u8]) -> Result<(), PipelineError>
        ensures ok { OnOk result (EditsSpan self.old span (update_name name.now ∷ []) self.new) }
        ensures err { OnErr result (Stays self.old self.new) }
    {
        let name = text_of(self.alloc, name)?;
        self.change(span, SpanEdit::UpdateName(name))
    }

    /// The headers that hand the span on to another process, each `name: value`, a carriage return and a line feed.
    pub fn headers(&self, span: u64) -> Result<String, PipelineError>
        ensures { IfOk result (λ lines. SaysHeaders self.now span (string_bytes lines)) }
    {
        let mut carrier = MapCarrier::new(self.alloc);
        self.inject(span, &mut carrier)?;
        Ok(lines_of(self.alloc, &carrier)?)
    }
}
