//! What an ended span is to exporters: everything that was recorded of it.

use crate::trace::{SpanEvents, SpanLinks};
use opentelemetry::trace::{SpanContext, SpanKind, Status};
use opentelemetry::{InstrumentationScope, KeyValue, Moment, SpanId};
use std::alloc::AllocError;
use std::marker::Model;

/// All that was recorded of one span.
#[derive(Debug, Drop)]
pub struct SpanData {
    pub span_context: SpanContext,
    /// Zero where the span has no parent.
    pub parent_span_id: SpanId,
    pub parent_span_is_remote: bool,
    pub span_kind: SpanKind,
    pub name: String,
    pub start_time: Moment,
    pub end_time: Moment,
    pub attributes: Vec<KeyValue>,
    /// How many attributes were over the span's limit.
    pub dropped_attributes_count: u32,
    pub events: SpanEvents,
    pub links: SpanLinks,
    pub status: Status,
    pub instrumentation_scope: InstrumentationScope,
}

impl Model for SpanData {
    ghost use Rattle.std.specs.Prelude.{string_bytes};
    ghost use Rattle.opentelemetry.specs.PlainValues.{plain_status};
    ghost use Rattle.otel_export.specs.PlainSpanData.{PlainSpanData};

    ghost Value = { PlainSpanData };

    ghost view = { λ a. record {
      span_context = a.span_context;
      parent_span_id = a.parent_span_id;
      parent_span_is_remote = a.parent_span_is_remote;
      span_kind = a.span_kind;
      name = string_bytes a.name;
      start_time = a.start_time.0;
      end_time = a.end_time.0;
      attributes = a.attributes.items;
      dropped_attributes_count = a.dropped_attributes_count;
      events = a.events;
      links = a.links;
      status = plain_status a.status;
      instrumentation_scope = a.instrumentation_scope;
    } };
}

impl Clone for SpanData {
    ghost use Rattle.std.specs.Prelude.{◌≡◌};

    ghost is_clone = { λ span copy. copy ≡ span };

    fn clone(&self) -> Result<SpanData, AllocError> {
        Ok(SpanData {
            span_context: self.span_context.clone()?,
            parent_span_id: self.parent_span_id,
            parent_span_is_remote: self.parent_span_is_remote,
            span_kind: self.span_kind,
            name: self.name.clone()?,
            start_time: self.start_time,
            end_time: self.end_time,
            attributes: self.attributes.clone()?,
            dropped_attributes_count: self.dropped_attributes_count,
            events: self.events.clone()?,
            links: self.links.clone()?,
            status: self.status.clone()?,
            instrumentation_scope: self.instrumentation_scope.clone()?,
        })
    }
}

impl SpanData {
    ghost use Rattle.std.specs.Prelude.{◌≡◌};
    ghost use Rattle.otel_export.specs.SameSpanData.{same_identity, same_recording};

    /// Where it stands among spans, its kind, its name and its scope.
    fn has_identity_of(&self, other: &SpanData) -> bool
        ensures { result ≡ same_identity self.now other.now }
    {
        self.span_context == other.span_context
            && self.parent_span_id == other.parent_span_id
            && self.parent_span_is_remote == other.parent_span_is_remote
            && self.span_kind == other.span_kind
            && self.name == other.name
            && self.instrumentation_scope == other.instrumentation_scope
    }

    /// Its moments, attributes, events, links and status.
    fn has_recording_of(&self, other: &SpanData) -> bool
        ensures { result ≡ same_recording self.now other.now }
    {
        self.start_time == other.start_time
            && self.end_time == other.end_time
            && self.attributes == other.attributes
            && self.dropped_attributes_count == other.dropped_attributes_count
            && self.events == other.events
            && self.links == other.links
            && self.status == other.status
    }
}

impl PartialEq for SpanData {
    ghost use Rattle.opentelemetry.specs.Same.{partial_equivalence_from_decides};
    ghost use Rattle.otel_export.specs.SameSpanData.{same_span_data, same_span_data_decides};

    ghost eq = { same_span_data };

    ghost laws = { partial_equivalence_from_decides same_span_data same_span_data_decides };

    fn eq(&self, other: &SpanData) -> bool {
        self.has_identity_of(other) && self.has_recording_of(other)
    }
}

impl Eq for SpanData {
    ghost use Rattle.opentelemetry.specs.Same.{equivalence_from_decides};
    ghost use Rattle.otel_export.specs.SameSpanData.{same_span_data, same_span_data_decides};

    ghost laws = { equivalence_from_decides same_span_data same_span_data_decides };
}
