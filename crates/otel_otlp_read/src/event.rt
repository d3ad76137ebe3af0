//! The events of a span. One that does not read is left out, and named by its place; so is an attribute of one.

ghost use Rattle.std.specs.Prelude.{◌≡◌, IfOk, OnOk, map};
ghost use Rattle.json.specs.Value.{value_view};
ghost use Rattle.otel_otlp_read.specs.Kept.{kept_by};
ghost use Rattle.otel_otlp_read.specs.Reading.{Gives};
ghost use Rattle.otel_otlp_read.specs.SpanLists.{event_at, event_in, events_of};

use crate::attributes::{ReadAttributes, attributes};
use crate::fault::{Fault, ReadError};
use crate::left_out::{ItemList, ItemPlace, LeftOut};
use crate::member::{list, object, text};
use crate::number::moment;
use json::Value;
use opentelemetry::SpanId;
use otel_shown::ShownEvent;
use std::alloc::{AllocError, Global};
use std::marker::Model;

/// An event, and which of its attributes do not read.
#[derive(Drop)]
struct ReadEvent {
    event: ShownEvent,
    left_out: Vec<LeftOut>,
}

impl Model for ReadEvent {
    ghost use Rattle.std.specs.Prelude.{[], ◌∷◌};
    ghost use Rattle.otel_shown.specs.Shown.{PlainShownEvent};
    ghost use Rattle.otel_otlp_read.specs.Kept.{Kept};

    ghost Value = { Kept PlainShownEvent };

    ghost view = { λ read. record { kept = read.event ∷ []; left_out = read.left_out.items } };
}

/// The events that read, and what is left out.
#[derive(Drop)]
pub(crate) struct ReadEvents {
    pub(crate) events: Vec<ShownEvent>,
    pub(crate) left_out: Vec<LeftOut>,
}

impl Model for ReadEvents {
    ghost use Rattle.otel_shown.specs.Shown.{PlainShownEvent};
    ghost use Rattle.otel_otlp_read.specs.Kept.{Kept};

    ghost Value = { Kept PlainShownEvent };

    ghost view = { λ read. record { kept = read.events.items; left_out = read.left_out.items } };
}

impl ReadEvents {
    ghost use Rattle.otel_otlp_read.specs.Kept.{and_kept, none_kept};

    /// None.
    fn new(alloc: Global) -> ReadEvents
        ensures { result ≡ none_kept }
    {
        ReadEvents {
            events: Vec::new(alloc),
            left_out: Vec::new(alloc),
        }
    }

    /// Appends the event of a span by its number there.
    fn add(
        &mut self,
        alloc: Global,
        span_id: SpanId,
        number: u64,
        value: &Value,
    ) -> Result<(), AllocError>
        ensures { OnOk result (self.new
            ≡ and_kept self.old (event_at span_id number (value_view value.now))) }
    {
        match event(alloc, span_id, number, value) {
            Ok(read) => {
                self.left_out.extend_from_slice(&read.left_out)?;
                self.events.push(read.event)?;
                Ok(())
            }
            Err(ReadError::Fault(fault)) => {
                let list = ItemList::SpanEvents(span_id);
                let item = ItemPlace { list, number };
                self.left_out.push(LeftOut { item, fault })?;
                Ok(())
            }
            Err(ReadError::OutOfMemory) => Err(AllocError),
        }
    }
}

/// An event: when it happened, what it is called, and its attributes.
#[tactic(auto, unfolding(crate::specs::SpanLists::event_in))]
fn event(alloc: Global, span_id: SpanId, number: u64, event: &Value) -> Result<ReadEvent, ReadError>
    ensures { Gives (λ read. read) result (event_in span_id number (value_view event.now)) }
{
    object(event, Fault::EventType)?;
    let timestamp = moment(event, "timeUnixNano")?;
    let name = text(event, "name", Fault::NameType)?;
    let list = ItemList::EventAttributes(span_id, number);
    let ReadAttributes { lines, left_out } = attributes(alloc, list, event)?;
    let name = String::from_str(alloc, name)?;
    let event = ShownEvent {
        timestamp,
        name,
        attributes: lines,
    };
    Ok(ReadEvent { event, left_out })
}

/// What is read of events, one after the other.
fn each_event(alloc: Global, span_id: SpanId, items: &[Value]) -> Result<ReadEvents, AllocError>
    ensures { IfOk result (λ read. read ≡ kept_by (event_at span_id) 1 (map value_view items.now)) }
{
    let mut read = ReadEvents::new(alloc);
    for (place, event) in items.iter().enumerate() {
        read.add(alloc, span_id, place as u64 + 1, event)?;
    }
    Ok(read)
}

/// What is read of the events of a span, in order.
#[tactic(auto, unfolding(crate::specs::SpanLists::events_of))]
pub(crate) fn events(alloc: Global, span_id: SpanId, span: &Value) -> Result<ReadEvents, ReadError>
    ensures { Gives (λ read. read) result (events_of span_id (value_view span.now)) }
{
    let items = list(span, "events", Fault::EventsType)?;
    Ok(each_event(alloc, span_id, items)?)
}
