//! One span: its context, its life, its lists and its status.

ghost use Rattle.opentelemetry.specs.PlainValues.{plain_status};
ghost use Rattle.opentelemetry.specs.Tracestate.{tracestate_text};
ghost use Rattle.otel_otlp.specs.OtlpSpan.{code_number, flags_of, kind_number};
ghost use Rattle.otel_otlp_protobuf.specs.NamedSpan.{event_members, link_members, span_members, status_members};
ghost use Rattle.otel_otlp_protobuf.specs.Said.{message_fields, parent_id, said_fields};
ghost use Rattle.otel_protobuf.specs.Progress.{TakesFields};
ghost use Rattle.otel_protobuf.specs.Wire.{fixed32, unless_empty, unless_zero};

use crate::message::{Message, nested, repeated};
use opentelemetry::SpanId;
use opentelemetry::trace::{Event, Link, SpanContext, Status, TraceState};
use otel_export::trace::SpanData;
use otel_otlp::parts::{code_number, flags_of, kind_number, message_of};
use otel_protobuf::Sink;
use std::alloc::Global;

/// The flags of a context, and where a context came from.
fn flags(sink: &mut Sink, number: u32, context: &SpanContext, is_remote: bool)
    ensures { TakesFields sink.old sink.new
        (unless_zero number fixed32 (flags_of context.now.trace_flags is_remote)) }
{
    sink.fixed32(number, flags_of(context.trace_flags(), is_remote));
}

/// The text of a trace state, which lies nowhere: it is made, and let go.
fn trace_state(sink: &mut Sink, alloc: Global, state: &TraceState)
    ensures { TakesFields sink.old sink.new (unless_empty 3 (tracestate_text state.now)) }
{
    match state.header(alloc) {
        Ok(text) => sink.bytes(3, text.as_bytes()),
        Err(_) => sink.fail(),
    }
}

impl Message for Event {
    ghost fields = { λ event. message_fields (event_members event) };

    fn write(&self, alloc: Global, sink: &mut Sink) {
        sink.number(4, self.dropped_attributes_count as u64);
        repeated(sink, alloc, 3, &self.attributes);
        sink.bytes(2, self.name.as_bytes());
        sink.fixed64(1, self.timestamp.0);
    }
}

impl Message for Link {
    ghost fields = { λ link. message_fields (link_members link) };

    fn write(&self, alloc: Global, sink: &mut Sink) {
        let context = &self.span_context;
        flags(sink, 6, context, context.is_remote());
        sink.number(5, self.dropped_attributes_count as u64);
        repeated(sink, alloc, 4, &self.attributes);
        trace_state(sink, alloc, context.trace_state());
        sink.bytes_field(2, &context.span_id().to_bytes());
        sink.bytes_field(1, &context.trace_id().to_bytes());
    }
}

impl Message for Status {
    ghost fields = { λ status. message_fields (status_members (plain_status status)) };

    fn write(&self, _alloc: Global, sink: &mut Sink) {
        sink.number(3, code_number(self));
        sink.bytes(2, message_of(self).as_bytes());
    }
}

/// The id of a parent, where there is one.
fn parent(sink: &mut Sink, parent: SpanId)
    ensures { TakesFields sink.old sink.new (said_fields 4 (parent_id parent)) }
{
    if parent != SpanId::INVALID {
        sink.bytes_field(4, &parent.to_bytes());
    }
}

impl Message for SpanData {
    ghost fields = { λ span. message_fields (span_members span) };

    fn write(&self, alloc: Global, sink: &mut Sink) {
        let context = &self.span_context;
        flags(sink, 16, context, self.parent_span_is_remote);
        nested(sink, alloc, 15, &self.status);
        sink.number(14, self.links.dropped_count as u64);
        repeated(sink, alloc, 13, &self.links.links);
        sink.number(12, self.events.dropped_count as u64);
        repeated(sink, alloc, 11, &self.events.events);
        sink.number(10, self.dropped_attributes_count as u64);
        repeated(sink, alloc, 9, &self.attributes);
        sink.fixed64(8, self.end_time.0);
        sink.fixed64(7, self.start_time.0);
        sink.number(6, kind_number(self.span_kind));
        sink.bytes(5, self.name.as_bytes());
        parent(sink, self.parent_span_id);
        trace_state(sink, alloc, context.trace_state());
        sink.bytes_field(2, &context.span_id().to_bytes());
        sink.bytes_field(1, &context.trace_id().to_bytes());
    }
}
