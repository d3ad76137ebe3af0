//! One span: its context, its life, its lists and its status.

ghost use Rattle.std.specs.Prelude.{◌++◌, ◌∷◌, [], codes};
ghost use Rattle.json.specs.Tree.{json_tokens};
ghost use Rattle.opentelemetry.specs.PlainValues.{plain_status};
ghost use Rattle.otel_otlp.specs.Fields.{Adds, fields_tokens, list_tokens};
ghost use Rattle.otel_otlp.specs.OtlpSpan.{code_number, context_fields, event_json, events_fields, flags_of};
ghost use Rattle.otel_otlp.specs.OtlpSpan.{identity_fields, kind_number, link_json, links_fields};
ghost use Rattle.otel_otlp.specs.OtlpSpan.{name_fields, parent_fields, recording_fields, span_json, status_json};
ghost use Rattle.otel_otlp.specs.OtlpSpan.{time_fields};
ghost use Rattle.otel_otlp.specs.OtlpValues.{number_field};

use crate::parts::{code_number, flags_of, kind_number, message_of};
use crate::tokens::RequestWriter;
use opentelemetry::trace::{Event, Link, SpanContext, Status};
use otel_export::trace::{SpanData, SpanEvents, SpanLinks};
use std::alloc::{AllocError, Global};

impl RequestWriter {
    fn context(&mut self, alloc: Global, context: &SpanContext) -> Result<(), AllocError>
        ensures { Adds result self.old self.new (fields_tokens (context_fields context.now)) }
    {
        self.trace_id_field("traceId", context.trace_id())?;
        self.span_id_field("spanId", context.span_id())?;
        let state = context.trace_state().header(alloc)?;
        self.text_field("traceState", state.as_str())
    }

    /// The flags of a context, and where a context came from.
    fn flags(&mut self, context: &SpanContext, is_remote: bool) -> Result<(), AllocError>
        ensures { Adds result self.old self.new
            (fields_tokens (number_field (codes "flags") (flags_of context.now.trace_flags is_remote) ∷ [])) }
    {
        self.number_field("flags", flags_of(context.trace_flags(), is_remote) as u64)
    }

    fn event(&mut self, event: &Event) -> Result<(), AllocError>
        ensures { Adds result self.old self.new (json_tokens (event_json event.now)) }
    {
        self.begin_object()?;
        self.moment_field("timeUnixNano", event.timestamp.0)?;
        self.text_field("name", event.name.as_str())?;
        self.attributes(&event.attributes, event.dropped_attributes_count)?;
        self.end_object()
    }

    fn event_items(&mut self, events: &[Event]) -> Result<(), AllocError>
        ensures { Adds result self.old self.new (list_tokens event_json events.now) }
    {
        for event in events {
            self.event(event)?;
        }
        Ok(())
    }

    fn events(&mut self, events: &SpanEvents) -> Result<(), AllocError>
        ensures { Adds result self.old self.new (fields_tokens (events_fields events.now)) }
    {
        self.key("events")?;
        self.begin_array()?;
        self.event_items(&events.events)?;
        self.end_array()?;
        self.number_field("droppedEventsCount", events.dropped_count as u64)
    }

    fn link(&mut self, alloc: Global, link: &Link) -> Result<(), AllocError>
        ensures { Adds result self.old self.new (json_tokens (link_json link.now)) }
    {
        let context = &link.span_context;
        self.begin_object()?;
        self.context(alloc, context)?;
        self.attributes(&link.attributes, link.dropped_attributes_count)?;
        self.flags(context, context.is_remote())?;
        self.end_object()
    }

    fn link_items(&mut self, alloc: Global, links: &[Link]) -> Result<(), AllocError>
        ensures { Adds result self.old self.new (list_tokens link_json links.now) }
    {
        for link in links {
            self.link(alloc, link)?;
        }
        Ok(())
    }

    fn links(&mut self, alloc: Global, links: &SpanLinks) -> Result<(), AllocError>
        ensures { Adds result self.old self.new (fields_tokens (links_fields links.now)) }
    {
        self.key("links")?;
        self.begin_array()?;
        self.link_items(alloc, &links.links)?;
        self.end_array()?;
        self.number_field("droppedLinksCount", links.dropped_count as u64)
    }

    fn status(&mut self, status: &Status) -> Result<(), AllocError>
        ensures { Adds result self.old self.new (json_tokens (status_json (plain_status status.now))) }
    {
        self.begin_object()?;
        self.text_field("message", message_of(status))?;
        self.number_field("code", code_number(status))?;
        self.end_object()
    }

    fn parent(&mut self, span: &SpanData) -> Result<(), AllocError>
        ensures { Adds result self.old self.new (fields_tokens (parent_fields span.now)) }
    {
        self.parent_field("parentSpanId", span.parent_span_id)?;
        self.flags(&span.span_context, span.parent_span_is_remote)
    }

    fn name(&mut self, span: &SpanData) -> Result<(), AllocError>
        ensures { Adds result self.old self.new (fields_tokens (name_fields span.now)) }
    {
        self.text_field("name", span.name.as_str())?;
        self.number_field("kind", kind_number(span.span_kind))
    }

    fn time(&mut self, span: &SpanData) -> Result<(), AllocError>
        ensures { Adds result self.old self.new (fields_tokens (time_fields span.now)) }
    {
        self.moment_field("startTimeUnixNano", span.start_time.0)?;
        self.moment_field("endTimeUnixNano", span.end_time.0)
    }

    /// Which span it is.
    fn identity(&mut self, alloc: Global, span: &SpanData) -> Result<(), AllocError>
        ensures { Adds result self.old self.new (fields_tokens (identity_fields span.now)) }
    {
        self.context(alloc, &span.span_context)?;
        self.parent(span)?;
        self.name(span)?;
        self.time(span)
    }

    /// What was recorded of it.
    fn recording(&mut self, alloc: Global, span: &SpanData) -> Result<(), AllocError>
        ensures { Adds result self.old self.new (fields_tokens (recording_fields span.now)) }
    {
        self.attributes(&span.attributes, span.dropped_attributes_count)?;
        self.events(&span.events)?;
        self.links(alloc, &span.links)?;
        self.key("status")?;
        self.status(&span.status)
    }

    pub(crate) fn span(&mut self, alloc: Global, span: &SpanData) -> Result<(), AllocError>
        ensures { Adds result self.old self.new (json_tokens (span_json span.now)) }
    {
        self.begin_object()?;
        self.identity(alloc, span)?;
        self.recording(alloc, span)?;
        self.end_object()
    }
}
