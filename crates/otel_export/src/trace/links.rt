//! The links of a span that were kept, and how many were not.

ghost use Rattle.std.specs.Prelude.{◌≡◌, []};

use opentelemetry::trace::Link;
use std::alloc::{AllocError, Global};
use std::marker::Model;
use std::vec::IntoIter;

/// Links in the order in which they were added; those over the span's limit are only counted.
#[derive(Debug, Drop)]
pub struct SpanLinks {
    pub links: Vec<Link>,
    pub dropped_count: u32,
}

impl Model for SpanLinks {
    ghost use Rattle.otel_export.specs.PlainSpanData.{PlainSpanLinks};

    ghost Value = { PlainSpanLinks };

    ghost view = { λ a. record { links = a.links.items; dropped_count = a.dropped_count } };
}

impl SpanLinks {
    /// No links.
    pub fn new(alloc: Global) -> SpanLinks
        ensures { result ≡ record { links = []; dropped_count = 0 } }
    {
        SpanLinks {
            links: Vec::new(alloc),
            dropped_count: 0,
        }
    }

    /// The links that were kept.
    pub fn as_slice(&self) -> &[Link]
        ensures { result.now ≡ self.now.links }
    {
        self.links.as_slice()
    }
}

impl IntoIterator for SpanLinks {
    type Item = Link;

    type IntoIter = IntoIter<Link>;

    ghost use Rattle.std.specs.Prelude.{◌≡◌};
    ghost use Rattle.std.specs.Vec.Iter.{into_iter_items};

    ghost into_iter_gives = { λ kept left. into_iter_items left ≡ kept.links };

    /// The links that were kept, in order.
    fn into_iter(self) -> IntoIter<Link> {
        self.links.into_iter()
    }
}

impl Clone for SpanLinks {
    ghost use Rattle.std.specs.Prelude.{◌≡◌};

    ghost is_clone = { λ links copy. copy ≡ links };

    fn clone(&self) -> Result<SpanLinks, AllocError> {
        Ok(SpanLinks {
            links: self.links.clone()?,
            dropped_count: self.dropped_count,
        })
    }
}

impl PartialEq for SpanLinks {
    ghost use Rattle.opentelemetry.specs.Same.{partial_equivalence_from_decides};
    ghost use Rattle.otel_export.specs.SameSpanData.{same_span_links, same_span_links_decides};

    ghost eq = { same_span_links };

    ghost laws = { partial_equivalence_from_decides same_span_links same_span_links_decides };

    fn eq(&self, other: &SpanLinks) -> bool {
        self.links == other.links && self.dropped_count == other.dropped_count
    }
}

impl Eq for SpanLinks {
    ghost use Rattle.opentelemetry.specs.Same.{equivalence_from_decides};
    ghost use Rattle.otel_export.specs.SameSpanData.{same_span_links, same_span_links_decides};

    ghost laws = { equivalence_from_decides same_span_links same_span_links_decides };
}
