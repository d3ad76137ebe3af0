//! An event as a picture shows it.

use opentelemetry::Moment;
use std::marker::Model;

/// When something happened within a span, what it is called, and its attributes.
#[derive(Debug, Drop)]
pub struct ShownEvent {
    pub timestamp: Moment,
    pub name: String,
    /// Lines as those of a span's attributes.
    pub attributes: String,
}

impl Model for ShownEvent {
    ghost use Rattle.std.specs.Prelude.{string_bytes};
    ghost use Rattle.otel_shown.specs.Shown.{PlainShownEvent};

    ghost Value = { PlainShownEvent };

    ghost view = { λ event. record {
      timestamp = event.timestamp.0;
      name = string_bytes event.name;
      attributes = string_bytes event.attributes;
    } };
}
