//! The part of a span that travels: its ids, its flags and its trace state (W3C Trace Context, section 3).

ghost use Rattle.std.specs.Prelude.{◌≡◌, ◌<◌, ◌%◌, ◌↔◌, IsTrue};
ghost use Rattle.opentelemetry.specs.PlainContexts.{empty_span_context};

use super::TraceState;
use crate::{SpanId, TraceFlags, TraceId};
use std::alloc::AllocError;
use std::marker::Model;

/// The identity of a span, and what travels with it to other processes.
#[derive(Debug, Drop)]
pub struct SpanContext {
    trace_id: TraceId,
    span_id: SpanId,
    trace_flags: TraceFlags,
    is_remote: bool,
    trace_state: TraceState,
}

impl Model for SpanContext {
    ghost use Rattle.opentelemetry.specs.Plain.{PlainSpanContext};

    ghost Value = { PlainSpanContext };

    ghost view = { λ context. record {
      trace_id = context.trace_id;
      span_id = context.span_id;
      trace_flags = context.trace_flags;
      is_remote = context.is_remote;
      trace_state = context.trace_state;
    } };
}

impl SpanContext {
    /// The context of a span of these ids. `is_remote` says that it came from another process. It is valid where
    /// neither id is zero (OpenTelemetry API, "SpanContext").
    pub fn new(
        trace_id: TraceId,
        span_id: SpanId,
        trace_flags: TraceFlags,
        is_remote: bool,
        trace_state: TraceState,
    ) -> SpanContext
        ensures { result ≡ record {
          trace_id = trace_id;
          span_id = span_id;
          trace_flags = trace_flags;
          is_remote = is_remote;
          trace_state = trace_state;
        } }
    {
        SpanContext {
            trace_id,
            span_id,
            trace_flags,
            is_remote,
            trace_state,
        }
    }

    /// The context of no span: both ids are invalid.
    pub fn empty_context() -> SpanContext
        ensures { result ≡ empty_span_context }
    {
        SpanContext {
            trace_id: TraceId::INVALID,
            span_id: SpanId::INVALID,
            trace_flags: TraceFlags::default(),
            is_remote: false,
            trace_state: TraceState::new(),
        }
    }

    /// The id of the trace, shared by all its spans.
    pub fn trace_id(&self) -> TraceId
        ensures { result ≡ self.now.trace_id }
    {
        self.trace_id
    }

    /// The id of the span.
    pub fn span_id(&self) -> SpanId
        ensures { result ≡ self.now.span_id }
    {
        self.span_id
    }

    /// The flags, of which the lowest bit says that the span is sampled.
    pub fn trace_flags(&self) -> TraceFlags
        ensures { result ≡ self.now.trace_flags }
    {
        self.trace_flags
    }

    /// What vendors add, as the header `tracestate` carries it.
    pub fn trace_state(&self) -> &TraceState
        ensures { result.now ≡ self.now.trace_state }
    {
        &self.trace_state
    }

    /// Whether the context came from another process.
    pub fn is_remote(&self) -> bool
        ensures { result ≡ self.now.is_remote }
    {
        self.is_remote
    }

    /// Whether the flags say that the span is sampled.
    pub fn is_sampled(&self) -> bool
        ensures { IsTrue result ↔ (self.now.trace_flags % 2 ≡ 1) }
    {
        self.trace_flags.is_sampled()
    }

    /// Whether neither id is zero.
    pub fn is_valid(&self) -> bool
        ensures { IsTrue result ↔ ((0 < self.now.trace_id) × (0 < self.now.span_id)) }
    {
        self.trace_id != TraceId::INVALID && self.span_id != SpanId::INVALID
    }
}

impl Clone for SpanContext {
    ghost use Rattle.std.specs.Prelude.{◌≡◌, []};

    ghost is_clone = { λ context copy. copy ≡ context };

    ghost is_infallible = { λ context. context.trace_state ≡ [] };

    /// A clone shares the trace state. Where that is empty it takes no memory.
    fn clone(&self) -> Result<SpanContext, AllocError> {
        Ok(SpanContext {
            trace_id: self.trace_id,
            span_id: self.span_id,
            trace_flags: self.trace_flags,
            is_remote: self.is_remote,
            trace_state: self.trace_state.clone()?,
        })
    }
}

impl PartialEq for SpanContext {
    ghost use Rattle.opentelemetry.specs.Same.{same_span_context, same_span_context_decides};
    ghost use Rattle.opentelemetry.specs.Same.{partial_equivalence_from_decides};

    ghost eq = { same_span_context };

    ghost laws = { partial_equivalence_from_decides same_span_context same_span_context_decides };

    fn eq(&self, other: &SpanContext) -> bool {
        self.trace_id == other.trace_id
            && self.span_id == other.span_id
            && self.trace_flags == other.trace_flags
            && self.is_remote == other.is_remote
            && self.trace_state == other.trace_state
    }
}

impl Eq for SpanContext {
    ghost use Rattle.opentelemetry.specs.Same.{same_span_context, same_span_context_decides, equivalence_from_decides};

    ghost laws = { equivalence_from_decides same_span_context same_span_context_decides };
}
