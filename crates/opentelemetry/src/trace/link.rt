//! Another span that a span points to.

ghost use Rattle.std.specs.Prelude.{◌≡◌};

use crate::KeyValue;
use crate::trace::SpanContext;
use std::alloc::AllocError;
use std::marker::Model;

/// A span context, and attributes of the relation.
#[derive(Clone, Debug, Drop)]
pub struct Link {
    pub span_context: SpanContext,
    pub attributes: Vec<KeyValue>,
    pub dropped_attributes_count: u32,
}

impl Model for Link {
    ghost use Rattle.opentelemetry.specs.Plain.{PlainLink};

    ghost Value = { PlainLink };

    ghost view = { λ link. record {
      span_context = link.span_context;
      attributes = link.attributes.items;
      dropped_attributes_count = link.dropped_attributes_count;
    } };
}

impl Link {
    /// `dropped` says how many attributes the caller left out already.
    pub fn new(span_context: SpanContext, attributes: Vec<KeyValue>, dropped: u32) -> Link
        ensures { result ≡ record {
          span_context = span_context;
          attributes = attributes.items;
          dropped_attributes_count = dropped;
        } }
    {
        Link {
            span_context,
            attributes,
            dropped_attributes_count: dropped,
        }
    }
}

impl PartialEq for Link {
    ghost use Rattle.opentelemetry.specs.Same.{partial_equivalence_from_decides};
    ghost use Rattle.opentelemetry.specs.SameParts.{same_link, same_link_decides};

    ghost eq = { same_link };

    ghost laws = { partial_equivalence_from_decides same_link same_link_decides };

    fn eq(&self, other: &Link) -> bool {
        self.span_context == other.span_context
            && self.attributes == other.attributes
            && self.dropped_attributes_count == other.dropped_attributes_count
    }
}

impl Eq for Link {
    ghost use Rattle.opentelemetry.specs.Same.{equivalence_from_decides};
    ghost use Rattle.opentelemetry.specs.SameParts.{same_link, same_link_decides};

    ghost laws = { equivalence_from_decides same_link same_link_decides };
}
