//! The part that a span plays between its process and others (OpenTelemetry specification, "SpanKind").

/// Whether a span serves a request, makes one, hands a message over, takes one, or stays inside its process.
#[derive(Clone, Copy, Debug, PartialEq, Eq, Default)]
pub enum SpanKind {
    Client,
    Server,
    Producer,
    Consumer,
    #[default]
    Internal,
}
