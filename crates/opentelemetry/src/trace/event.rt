//! Something that happened within a span at a moment.

ghost use Rattle.std.specs.Prelude.{◌≡◌, string_bytes};

use crate::{KeyValue, Moment};
use std::alloc::AllocError;
use std::marker::Model;

/// A name, a moment, and attributes.
#[derive(Clone, Debug, Drop)]
pub struct Event {
    pub name: String,
    pub timestamp: Moment,
    pub attributes: Vec<KeyValue>,
    pub dropped_attributes_count: u32,
}

impl Model for Event {
    ghost use Rattle.std.specs.Prelude.{string_bytes};
    ghost use Rattle.opentelemetry.specs.Plain.{PlainEvent};

    ghost Value = { PlainEvent };

    ghost view = { λ event. record {
      name = string_bytes event.name;
      timestamp = event.timestamp.0;
      attributes = event.attributes.items;
      dropped_attributes_count = event.dropped_attributes_count;
    } };
}

impl Event {
    /// `dropped` says how many attributes the caller left out already.
    pub fn new(name: String, timestamp: Moment, attributes: Vec<KeyValue>, dropped: u32) -> Event
        ensures { result ≡ record {
          name = string_bytes name;
          timestamp = timestamp.0;
          attributes = attributes.items;
          dropped_attributes_count = dropped;
        } }
    {
        Event {
            name,
            timestamp,
            attributes,
            dropped_attributes_count: dropped,
        }
    }
}

impl PartialEq for Event {
    ghost use Rattle.opentelemetry.specs.Same.{partial_equivalence_from_decides};
    ghost use Rattle.opentelemetry.specs.SameParts.{same_event, same_event_decides};

    ghost eq = { same_event };

    ghost laws = { partial_equivalence_from_decides same_event same_event_decides };

    fn eq(&self, other: &Event) -> bool {
        self.name == other.name
            && self.timestamp == other.timestamp
            && self.attributes == other.attributes
            && self.dropped_attributes_count == other.dropped_attributes_count
    }
}

impl Eq for Event {
    ghost use Rattle.opentelemetry.specs.Same.{equivalence_from_decides};
    ghost use Rattle.opentelemetry.specs.SameParts.{same_event, same_event_decides};

    ghost laws = { equivalence_from_decides same_event same_event_decides };
}
