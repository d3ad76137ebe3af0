//! A span as a picture shows it: which one it is, who made it, when it was, how it went, and its texts.

ghost use Rattle.std.specs.Prelude.{◌≡◌, IfOk, OnOk, map, string_bytes};
ghost use Rattle.opentelemetry.specs.Text.{TextGrows};
ghost use Rattle.otel_shown.specs.Shown.{attribute_line, attribute_lines, shown_event, shown_link, shown_span};

use crate::{ShownEvent, ShownLink, ShownResource};
use opentelemetry::trace::{Event, Link, SpanKind, Status};
use opentelemetry::{KeyValue, Moment, SpanId, TraceId, Value};
use otel_export::trace::{SpanData, SpanEvents, SpanLinks};
use std::alloc::{AllocError, Global};
use std::fmt::Write;
use std::marker::Model;

/// A span of any producer, as far as pictures and summaries show it.
#[derive(Debug, Drop)]
pub struct ShownSpan {
    pub trace_id: TraceId,
    pub span_id: SpanId,
    /// Zero where the span has no parent.
    pub parent_span_id: SpanId,
    pub name: String,
    /// Who made the span; spans of one resource share its texts.
    pub resource: ShownResource,
    pub kind: SpanKind,
    pub start_time: Moment,
    pub end_time: Moment,
    pub status: Status,
    /// A line `key=value` for each attribute, begun by a line feed; values are in the text that `Value` displays.
    pub attributes: String,
    /// Its events in the order in which they were recorded.
    pub events: Vec<ShownEvent>,
    /// The spans that it points to, in the order in which they were recorded.
    pub links: Vec<ShownLink>,
}

// A summary of a file keeps all of its spans.
const _: () = prove!(std::mem::size_of::<ShownSpan>() <= 200);

impl Model for ShownSpan {
    ghost use Rattle.std.specs.Prelude.{string_bytes};
    ghost use Rattle.opentelemetry.specs.PlainValues.{plain_status};
    ghost use Rattle.otel_shown.specs.Shown.{PlainShownSpan};

    ghost Value = { PlainShownSpan };

    ghost view = { λ a. record {
      trace_id = a.trace_id;
      span_id = a.span_id;
      parent_span_id = a.parent_span_id;
      name = string_bytes a.name;
      service = a.resource.service;
      resource = a.resource.attributes;
      kind = a.kind;
      start_time = a.start_time.0;
      end_time = a.end_time.0;
      status = plain_status a.status;
      attributes = string_bytes a.attributes;
      events = a.events.items;
      links = a.links.items;
    } };
}

impl ShownSpan {
    /// An exported span of a resource. Its name and its description move; its attributes become one text.
    pub fn of(
        alloc: Global,
        resource: ShownResource,
        span: SpanData,
    ) -> Result<ShownSpan, AllocError>
        ensures { IfOk result (λ shown. shown ≡ shown_span resource span) }
    {
        let attributes = attribute_lines(alloc, span.attributes.as_slice())?;
        let trace_id = span.span_context.trace_id();
        let span_id = span.span_context.span_id();
        let events = shown_events(alloc, span.events)?;
        let links = shown_links(alloc, span.links)?;
        Ok(ShownSpan {
            trace_id,
            span_id,
            parent_span_id: span.parent_span_id,
            name: span.name,
            resource,
            kind: span.span_kind,
            start_time: span.start_time,
            end_time: span.end_time,
            status: span.status,
            attributes,
            events,
            links,
        })
    }
}

/// Appends the line of an attribute: a line feed, its key, `=` and the text of its value.
fn push_attribute(text: &mut String, attribute: &KeyValue) -> Result<(), AllocError>
    ensures { OnOk result (TextGrows text.old (attribute_line attribute.now) text.new) }
{
    text.push('\n')?;
    text.push_str(attribute.key.as_str())?;
    text.push('=')?;
    match &attribute.value {
        Value::String(value) => text.push_str(value.as_str()),
        value => write!(text, "{value}"),
    }
}

/// The lines of attributes, in order.
fn attribute_lines(alloc: Global, attributes: &[KeyValue]) -> Result<String, AllocError>
    ensures { IfOk result (λ text. string_bytes text ≡ attribute_lines attributes.now) }
{
    let mut text = String::new(alloc);
    for attribute in attributes {
        push_attribute(&mut text, attribute)?;
    }
    Ok(text)
}

/// An event. Its name moves; its attributes become one text.
fn shown_event(alloc: Global, event: Event) -> Result<ShownEvent, AllocError>
    ensures { IfOk result (λ shown. shown ≡ shown_event event) }
{
    let attributes = attribute_lines(alloc, event.attributes.as_slice())?;
    Ok(ShownEvent {
        timestamp: event.timestamp,
        name: event.name,
        attributes,
    })
}

/// Events, in order.
fn shown_events(alloc: Global, kept: SpanEvents) -> Result<Vec<ShownEvent>, AllocError>
    ensures { IfOk result (λ events. events.items ≡ map shown_event kept.events) }
{
    let mut events = Vec::with_capacity(alloc, kept.events.len())?;
    for event in kept.events {
        events.push(shown_event(alloc, event)?)?;
    }
    Ok(events)
}

/// A link, whose attributes become one text.
fn shown_link(alloc: Global, link: Link) -> Result<ShownLink, AllocError>
    ensures { IfOk result (λ shown. shown ≡ shown_link link) }
{
    let attributes = attribute_lines(alloc, link.attributes.as_slice())?;
    let trace_id = link.span_context.trace_id();
    let span_id = link.span_context.span_id();
    Ok(ShownLink {
        trace_id,
        span_id,
        attributes,
    })
}

/// Links, in order.
fn shown_links(alloc: Global, kept: SpanLinks) -> Result<Vec<ShownLink>, AllocError>
    ensures { IfOk result (λ links. links.items ≡ map shown_link kept.links) }
{
    let mut links = Vec::with_capacity(alloc, kept.links.len())?;
    for link in kept.links {
        links.push(shown_link(alloc, link)?)?;
    }
    Ok(links)
}
