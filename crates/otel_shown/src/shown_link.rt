//! A link as a picture shows it.

use opentelemetry::{SpanId, TraceId};
use std::marker::Model;

/// Which span a span points to, and the attributes of that relation.
#[derive(Debug, Drop)]
pub struct ShownLink {
    pub trace_id: TraceId,
    pub span_id: SpanId,
    /// Lines as those of a span's attributes.
    pub attributes: String,
}

impl Model for ShownLink {
    ghost use Rattle.std.specs.Prelude.{string_bytes};
    ghost use Rattle.otel_shown.specs.Shown.{PlainShownLink};

    ghost Value = { PlainShownLink };

    ghost view = { λ link. record {
      trace_id = link.trace_id;
      span_id = link.span_id;
      attributes = string_bytes link.attributes;
    } };
}
