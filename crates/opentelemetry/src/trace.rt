//! The values of one span: its context, kind, status, events and links.

pub mod event;
pub mod link;
pub mod span_builder;
pub mod span_context;
pub mod span_kind;
pub mod status;
pub mod trace_state;

pub use crate::trace_context::{SpanId, TraceFlags, TraceId};
pub use event::Event;
pub use link::Link;
pub use span_builder::SpanBuilder;
pub use span_context::SpanContext;
pub use span_kind::SpanKind;
pub use status::Status;
pub use trace_state::{TraceState, TraceStateError};
