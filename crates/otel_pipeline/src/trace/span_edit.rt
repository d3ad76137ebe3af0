//! Edits of a span: as functions over what it has recorded, which a span's calls share, and as values, for a program
//! that takes edits from elsewhere.

ghost use Rattle.std.specs.Prelude.{◌≡◌, ◌≤◌, ◌⊎◌, [], length, IsNone, IsOk, IfSome, OnErr, OnOk};
ghost use Rattle.opentelemetry.specs.Order.{greater_status};
ghost use Rattle.opentelemetry.specs.PlainValues.{plain_status};
ghost use Rattle.otel_pipeline.specs.SpanEdits.{plain_edit};
ghost use Rattle.otel_pipeline.specs.SpanHistory as history;

use super::limits::{append_within, cut_event, cut_link, push_within};
use super::value_length::cut_attribute;
use crate::trace::Recorded;
use opentelemetry::KeyValue;
use opentelemetry::trace::{Event, Link, Status};
use otel_export::trace::{SpanData, SpanEvents, SpanLinks};
use otel_sampling::trace::SpanLimits;
use std::alloc::AllocError;

/// What may be done to a span while it records (OpenTelemetry specification, "Span operations").
#[derive(Debug, Drop)]
pub enum SpanEdit {
    SetAttribute(KeyValue),
    /// The event's count of dropped attributes is not read: it becomes how many are cut here.
    AddEvent(Event),
    /// As with events, the link's count is not read.
    AddLink(Link),
    SetStatus(Status),
    UpdateName(String),
}

impl SpanEdit {
    /// Edits what a span has recorded, where it records.
    pub(crate) fn apply(self, recorded: &mut Recorded, limits: SpanLimits) -> Result<(), AllocError>
        ensures ok { OnOk result (recorded.new ≡ history.edited_if limits (plain_edit self) recorded.old) }
        ensures err { OnErr result (recorded.new ≡ recorded.old) }
        ensures free { IsNone recorded.old → IsOk result }
        ensures full { IfSome recorded.old
            (λ recorded. history.KeepsNoMore limits (plain_edit self) recorded → IsOk result) }
    {
        match self {
            SpanEdit::SetAttribute(attribute) => set_attribute(recorded, &limits, attribute),
            SpanEdit::AddEvent(event) => add_event(recorded, limits, event),
            SpanEdit::AddLink(link) => add_link(recorded, limits, link),
            SpanEdit::SetStatus(status) => {
                if let Some(recorded) = recorded.data.first_mut() {
                    raise(&mut recorded.status, status);
                }
                Ok(())
            }
            SpanEdit::UpdateName(name) => {
                if let Some(recorded) = recorded.data.first_mut() {
                    recorded.name = name;
                }
                Ok(())
            }
        }
    }
}

/// Sets an attribute, or counts it.
#[inline(never)]
pub(crate) fn set_attribute(
    recorded: &mut Recorded,
    limits: &SpanLimits,
    mut attribute: KeyValue,
) -> Result<(), AllocError>
    ensures ok { OnOk result (recorded.new
        ≡ history.edited_if limits.now (history.set_attribute attribute) recorded.old) }
    ensures err { OnErr result (recorded.new ≡ recorded.old) }
    ensures free { IsNone recorded.old → IsOk result }
    ensures full { IfSome recorded.old
        (λ recorded. limits.now.max_attributes_per_span ≤ length recorded.attributes → IsOk result) }
{
    let Some(recorded) = recorded.data.first_mut() else {
        return Ok(());
    };
    cut_attribute(&mut attribute, limits);
    let SpanData {
        attributes,
        dropped_attributes_count,
        ..
    } = recorded;
    let limit = limits.max_attributes_per_span;
    push_within(attributes, dropped_attributes_count, limit, attribute)
}

/// Sets attributes in their order, as far as there is room for them, and counts the others.
pub(crate) fn set_attributes(
    recorded: &mut Recorded,
    limits: &SpanLimits,
    added: Vec<KeyValue>,
) -> Result<(), AllocError>
    ensures ok { OnOk result (recorded.new ≡ history.set_each limits.now added.items recorded.old) }
    ensures err { OnErr result (recorded.new ≡ recorded.old) }
    ensures free { IsNone recorded.old ⊎ (added.items ≡ []) → IsOk result }
    ensures full { IfSome recorded.old
        (λ recorded. limits.now.max_attributes_per_span ≤ length recorded.attributes → IsOk result) }
{
    let Some(recorded) = recorded.data.first_mut() else {
        return Ok(());
    };
    let SpanData {
        attributes,
        dropped_attributes_count,
        ..
    } = recorded;
    append_within(attributes, dropped_attributes_count, limits, added)
}

/// Adds an event, or counts it.
pub(crate) fn add_event(
    recorded: &mut Recorded,
    limits: SpanLimits,
    mut event: Event,
) -> Result<(), AllocError>
    ensures ok { OnOk result (recorded.new ≡ history.edited_if limits (history.add_event event) recorded.old) }
    ensures err { OnErr result (recorded.new ≡ recorded.old) }
    ensures free { IsNone recorded.old → IsOk result }
    ensures full { IfSome recorded.old
        (λ recorded. limits.max_events_per_span ≤ length recorded.events.events → IsOk result) }
{
    let Some(recorded) = recorded.data.first_mut() else {
        return Ok(());
    };
    cut_event(&mut event, limits);
    let SpanEvents {
        events,
        dropped_count,
    } = &mut recorded.events;
    push_within(events, dropped_count, limits.max_events_per_span, event)
}

/// Adds a link, or counts it.
pub(crate) fn add_link(
    recorded: &mut Recorded,
    limits: SpanLimits,
    mut link: Link,
) -> Result<(), AllocError>
    ensures ok { OnOk result (recorded.new ≡ history.edited_if limits (history.add_link link) recorded.old) }
    ensures err { OnErr result (recorded.new ≡ recorded.old) }
    ensures free { IsNone recorded.old → IsOk result }
    ensures full { IfSome recorded.old
        (λ recorded. limits.max_links_per_span ≤ length recorded.links.links → IsOk result) }
{
    let Some(recorded) = recorded.data.first_mut() else {
        return Ok(());
    };
    cut_link(&mut link, limits);
    let SpanLinks {
        links,
        dropped_count,
    } = &mut recorded.links;
    push_within(links, dropped_count, limits.max_links_per_span, link)
}

/// Keeps the greater of two statuses.
fn raise(status: &mut Status, other: Status)
    ensures { plain_status status.new ≡ greater_status (plain_status status.old) (plain_status other) }
{
    if *status < other {
        *status = other;
    }
}
