//! What a span is to start with.

ghost use Rattle.std.specs.Prelude.{◌≡◌, Some, string_bytes};
ghost use Rattle.std.specs.Option.{option_eq};
ghost use Rattle.opentelemetry.specs.PlainSpanBuilder.{named_builder};
ghost use Rattle.opentelemetry.specs.SameBuilder.{same_kind, kind_place};

use crate::trace::{Event, Link, SpanKind};
use crate::{KeyValue, Moment};
use std::alloc::AllocError;
use std::marker::Model;

/// A span's name, and what else the caller knows of it before it starts. What is `None` is left to the tracer.
#[derive(Clone, Debug, Drop)]
pub struct SpanBuilder {
    pub name: String,
    pub span_kind: Option<SpanKind>,
    pub start_time: Option<Moment>,
    pub attributes: Option<Vec<KeyValue>>,
    pub events: Option<Vec<Event>>,
    pub links: Option<Vec<Link>>,
}

impl Model for SpanBuilder {
    ghost use Rattle.opentelemetry.specs.PlainSpanBuilder.{PlainSpanBuilder};

    ghost Value = { PlainSpanBuilder };

    ghost use Rattle.std.specs.Prelude.{string_bytes};
    ghost use Rattle.std.specs.Option.{option_map};

    ghost view = { λ builder. record {
      name = string_bytes builder.name;
      span_kind = builder.span_kind;
      start_time = option_map (λ moment. moment.0) builder.start_time;
      attributes = option_map (λ attributes. attributes.items) builder.attributes;
      events = option_map (λ events. events.items) builder.events;
      links = option_map (λ links. links.items) builder.links;
    } };
}

impl SpanBuilder {
    /// A builder with a name and nothing else.
    pub fn from_name(name: String) -> SpanBuilder
        ensures { result ≡ named_builder (string_bytes name) }
    {
        SpanBuilder {
            name,
            span_kind: None,
            start_time: None,
            attributes: None,
            events: None,
            links: None,
        }
    }

    /// With this kind. A span without one is internal.
    pub fn with_kind(mut self, span_kind: SpanKind) -> SpanBuilder
        ensures { result ≡ record self { span_kind = Some span_kind } }
    {
        self.span_kind = Some(span_kind);
        self
    }

    /// With this start, in place of the moment at which it is started.
    pub fn with_start_time(mut self, start_time: Moment) -> SpanBuilder
        ensures { result ≡ record self { start_time = Some start_time.0 } }
    {
        self.start_time = Some(start_time);
        self
    }

    /// With these attributes, which the sampler sees, in place of earlier ones.
    pub fn with_attributes(mut self, attributes: Vec<KeyValue>) -> SpanBuilder
        ensures { result ≡ record self { attributes = Some attributes.items } }
    {
        self.attributes = Some(attributes);
        self
    }

    /// With these events, in place of earlier ones.
    pub fn with_events(mut self, events: Vec<Event>) -> SpanBuilder
        ensures { result ≡ record self { events = Some events.items } }
    {
        self.events = Some(events);
        self
    }

    /// With these links, which the sampler sees, in place of earlier ones.
    pub fn with_links(mut self, links: Vec<Link>) -> SpanBuilder
        ensures { result ≡ record self { links = Some links.items } }
    {
        self.links = Some(links);
        self
    }
}

impl PartialEq for SpanBuilder {
    ghost use Rattle.opentelemetry.specs.Same.{partial_equivalence_from_decides};
    ghost use Rattle.opentelemetry.specs.SameBuilder.{same_builder, same_builder_decides};

    ghost eq = { same_builder };

    ghost laws = { partial_equivalence_from_decides same_builder same_builder_decides };

    fn eq(&self, other: &SpanBuilder) -> bool {
        self.name == other.name
            && same_kinds(self.span_kind, other.span_kind)
            && self.start_time == other.start_time
            && self.attributes == other.attributes
            && self.events == other.events
            && self.links == other.links
    }
}

impl Eq for SpanBuilder {
    ghost use Rattle.opentelemetry.specs.Same.{equivalence_from_decides};
    ghost use Rattle.opentelemetry.specs.SameBuilder.{same_builder, same_builder_decides};

    ghost laws = { equivalence_from_decides same_builder same_builder_decides };
}

fn same_kinds(this: Option<SpanKind>, that: Option<SpanKind>) -> bool
    ensures { result ≡ option_eq same_kind this that }
{
    match (this, that) {
        (Some(this), Some(that)) => place_of(this) == place_of(that),
        (None, None) => true,
        _ => false,
    }
}

/// Where a kind stands among the kinds.
fn place_of(kind: SpanKind) -> u8
    ensures { result ≡ kind_place kind }
{
    match kind {
        SpanKind::Client => 0,
        SpanKind::Server => 1,
        SpanKind::Producer => 2,
        SpanKind::Consumer => 3,
        SpanKind::Internal => 4,
    }
}
