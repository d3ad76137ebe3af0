//! The events of a span that were kept, and how many were not.

ghost use Rattle.std.specs.Prelude.{◌≡◌, []};

use opentelemetry::trace::Event;
use std::alloc::{AllocError, Global};
use std::marker::Model;
use std::vec::IntoIter;

/// Events in the order in which they were added; those over the span's limit are only counted.
#[derive(Debug, Drop)]
pub struct SpanEvents {
    pub events: Vec<Event>,
    pub dropped_count: u32,
}

impl Model for SpanEvents {
    ghost use Rattle.otel_export.specs.PlainSpanData.{PlainSpanEvents};

    ghost Value = { PlainSpanEvents };

    ghost view = { λ a. record { events = a.events.items; dropped_count = a.dropped_count } };
}

impl SpanEvents {
    /// No events.
    pub fn new(alloc: Global) -> SpanEvents
        ensures { result ≡ record { events = []; dropped_count = 0 } }
    {
        SpanEvents {
            events: Vec::new(alloc),
            dropped_count: 0,
        }
    }

    /// The events that were kept.
    pub fn as_slice(&self) -> &[Event]
        ensures { result.now ≡ self.now.events }
    {
        self.events.as_slice()
    }
}

impl IntoIterator for SpanEvents {
    type Item = Event;

    type IntoIter = IntoIter<Event>;

    ghost use Rattle.std.specs.Prelude.{◌≡◌};
    ghost use Rattle.std.specs.Vec.Iter.{into_iter_items};

    ghost into_iter_gives = { λ kept left. into_iter_items left ≡ kept.events };

    /// The events that were kept, in order.
    fn into_iter(self) -> IntoIter<Event> {
        self.events.into_iter()
    }
}

impl Clone for SpanEvents {
    ghost use Rattle.std.specs.Prelude.{◌≡◌};

    ghost is_clone = { λ events copy. copy ≡ events };

    fn clone(&self) -> Result<SpanEvents, AllocError> {
        Ok(SpanEvents {
            events: self.events.clone()?,
            dropped_count: self.dropped_count,
        })
    }
}

impl PartialEq for SpanEvents {
    ghost use Rattle.opentelemetry.specs.Same.{partial_equivalence_from_decides};
    ghost use Rattle.otel_export.specs.SameSpanData.{same_span_events, same_span_events_decides};

    ghost eq = { same_span_events };

    ghost laws = { partial_equivalence_from_decides same_span_events same_span_events_decides };

    fn eq(&self, other: &SpanEvents) -> bool {
        self.events == other.events && self.dropped_count == other.dropped_count
    }
}

impl Eq for SpanEvents {
    ghost use Rattle.opentelemetry.specs.Same.{equivalence_from_decides};
    ghost use Rattle.otel_export.specs.SameSpanData.{same_span_events, same_span_events_decides};

    ghost laws = { equivalence_from_decides same_span_events same_span_events_decides };
}
