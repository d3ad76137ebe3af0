//! The text of a span: its line, which the program `otel_trace` prints too.

ghost use Rattle.std.specs.Prelude.{◌≡◌, ◌∷◌, [], IsOk, OnOk};
ghost use Rattle.opentelemetry.specs.PlainValues.{plain_status};
ghost use Rattle.opentelemetry.specs.Text.{TextGrows};
ghost use Rattle.otel_console.specs.SpanText.{attribute_text, attributes_text, comma_before, event_text, events_text};
ghost use Rattle.otel_console.specs.SpanText.{identity_text, ids_and_times_text, links_text, listed, span_line};
ghost use Rattle.otel_console.specs.SpanText.{span_lines, spaced, status_text};

use opentelemetry::trace::{Event, Status};
use opentelemetry::{KeyValue, Value};
use otel_export::trace::{SpanData, SpanEvents, SpanLinks};
use otel_lines::digits::{Digits, push_decimal};
use std::alloc::AllocError;
use std::fmt::Write;

/// `unset`, `ok`, or `error` and the description in parentheses.
fn push_status(text: &mut String, status: &Status) -> Result<(), AllocError>
    ensures { OnOk result (TextGrows text.old (status_text (plain_status status.now)) text.new) }
{
    match status {
        Status::Unset => text.push_str("unset"),
        Status::Error { description } => write!(text, "error({description})"),
        Status::Ok => text.push_str("ok"),
    }
}

/// The event's name, `@` and its moment.
fn push_event(text: &mut String, event: &Event) -> Result<(), AllocError>
    ensures { OnOk result (TextGrows text.old (event_text event.now) text.new) }
{
    text.push_str(event.name.as_str())?;
    text.push('@')?;
    push_decimal(text, event.timestamp.0)
}

/// A comma before each item but the first.
pub fn push_comma(text: &mut String, i: usize) -> Result<(), AllocError>
    ensures { OnOk result (TextGrows text.old (comma_before i) text.new) }
{
    if i == 0 { Ok(()) } else { text.push(',') }
}

/// The attribute's key, `=` and its value.
fn push_attribute(text: &mut String, attribute: &KeyValue) -> Result<(), AllocError>
    ensures { OnOk result (TextGrows text.old (attribute_text attribute.now) text.new) }
{
    text.push_str(attribute.key.as_str())?;
    text.push('=')?;
    match &attribute.value {
        Value::String(value) => text.push_str(value.as_str()),
        value => write!(text, "{value}"),
    }
}

/// The attributes in brackets.
fn push_attribute_list(text: &mut String, attributes: &[KeyValue]) -> Result<(), AllocError>
    ensures { OnOk result (TextGrows text.old (listed attribute_text attributes.now) text.new) }
{
    text.push('[')?;
    for (i, attribute) in attributes.iter().enumerate() {
        push_comma(text, i)?;
        push_attribute(text, attribute)?;
    }
    text.push(']')
}

/// The attributes that were kept, and how many were not.
#[tactic(auto, using(std::proofs::lemmas::List::append_assoc))]
fn push_attributes(text: &mut String, span: &SpanData) -> Result<(), AllocError>
    ensures { OnOk result (TextGrows text.old (attributes_text span.now) text.new) }
{
    text.push_str("attrs ")?;
    push_attribute_list(text, span.attributes.as_slice())?;
    text.push(' ')?;
    push_decimal(text, u64::from(span.dropped_attributes_count))
}

/// The events in brackets.
fn push_event_list(text: &mut String, events: &[Event]) -> Result<(), AllocError>
    ensures { OnOk result (TextGrows text.old (listed event_text events.now) text.new) }
{
    text.push('[')?;
    for (i, event) in events.iter().enumerate() {
        push_comma(text, i)?;
        push_event(text, event)?;
    }
    text.push(']')
}

/// The events that were kept, and how many were not.
#[tactic(auto, using(std::proofs::lemmas::List::append_assoc))]
fn push_events(text: &mut String, events: &SpanEvents) -> Result<(), AllocError>
    ensures { OnOk result (TextGrows text.old (events_text events.now) text.new) }
{
    text.push_str("events ")?;
    push_event_list(text, events.events.as_slice())?;
    text.push(' ')?;
    push_decimal(text, u64::from(events.dropped_count))
}

/// How many links were kept, and how many were not.
fn push_links(text: &mut String, links: &SpanLinks) -> Result<(), AllocError>
    ensures { OnOk result (TextGrows text.old (links_text links.now) text.new) }
{
    text.push_str("links ")?;
    push_decimal(text, links.links.len() as u64)?;
    text.push(' ')?;
    push_decimal(text, u64::from(links.dropped_count))
}

/// The events and links of a span.
#[tactic(auto, using(std::proofs::lemmas::List::append_assoc))]
fn push_events_and_links(text: &mut String, span: &SpanData) -> Result<(), AllocError>
    ensures { OnOk result (TextGrows text.old
        (spaced (events_text span.now.events ∷ links_text span.now.links ∷ [])) text.new) }
{
    push_events(text, &span.events)?;
    text.push(' ')?;
    push_links(text, &span.links)
}

/// Which span it is and when it ran, with a space after each part.
#[inline(always)]
fn ids_and_times(span: &SpanData) -> Digits
    ensures { result ≡ ids_and_times_text span.now }
{
    let mut digits = Digits::new();
    digits.put(b' ');
    digits.put_decimal(span.end_time.0);
    digits.put(b' ');
    digits.put_decimal(span.start_time.0);
    digits.put(b' ');
    digits.put_flags(span.span_context.trace_flags());
    digits.put(b' ');
    digits.put_span_id(span.parent_span_id);
    digits.put(b' ');
    digits.put_span_id(span.span_context.span_id());
    digits.put(b' ');
    digits.put_trace_id(span.span_context.trace_id());
    digits
}

/// Which span it is, what it is called, when it ran and how it went.
#[tactic(auto, using(std::proofs::lemmas::List::append_assoc))]
fn push_identity(text: &mut String, span: &SpanData) -> Result<(), AllocError>
    ensures { OnOk result (TextGrows text.old (identity_text span.now) text.new) }
{
    text.push_str("span ")?;
    text.push_str(ids_and_times(span).as_str())?;
    text.push_str(span.name.as_str())?;
    text.push(' ')?;
    push_status(text, &span.status)
}

/// The line of one exported span.
#[tactic(auto, using(std::proofs::lemmas::List::append_assoc))]
fn push_span(text: &mut String, span: &SpanData) -> Result<(), AllocError>
    ensures { OnOk result (TextGrows text.old (span_line span.now) text.new) }
{
    push_identity(text, span)?;
    text.push(' ')?;
    push_attributes(text, span)?;
    text.push(' ')?;
    push_events_and_links(text, span)?;
    text.push('\n')
}

/// The lines of the spans of a batch, in order.
pub fn push_spans(text: &mut String, spans: &[SpanData]) -> Result<(), AllocError>
    ensures grown { OnOk result (TextGrows text.old (span_lines spans.now) text.new) }
    ensures free { spans.now ≡ [] → IsOk result }
{
    for span in spans {
        push_span(text, span)?;
    }
    Ok(())
}
