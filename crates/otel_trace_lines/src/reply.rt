//! What a session replies to a command.

ghost use Rattle.std.specs.Prelude.{◌≡◌};
ghost use Rattle.otel_trace_lines.specs.PlainReply.{counts_refusals};

use opentelemetry::{SpanId, TraceFlags, TraceId};
use otel_export::error::OTelSdkError;
use otel_export::trace::SpanData;
use std::marker::Model;

/// Who a span is: what its reply shows of its context.
#[derive(Clone, Copy, Debug, PartialEq, Eq)]
pub struct SpanIdentity {
    pub trace_id: TraceId,
    pub span_id: SpanId,
    pub trace_flags: TraceFlags,
}

/// The answer to a command.
#[derive(Debug, Drop, PartialEq, Eq)]
pub enum Answer {
    /// The new span is recording.
    Started(SpanIdentity),
    /// The new span is not recording.
    Dropped(SpanIdentity),
    /// It was done.
    Ok,
    /// The headers of the span.
    Headers {
        traceparent: String,
        tracestate: String,
    },
    /// The span has no ids that could travel.
    NoHeaders,
    /// The span is not recording, so nothing was done.
    Ignored,
    /// No span has the name: no start made it, or it was given up.
    NoSuchSpan,
    /// The name is taken.
    SpanExists,
    /// The span is recording, so its name was not given up.
    StillOpen,
    /// The span has ended, and so many processors refused it when memory runs out.
    Ended(usize),
    /// The flush or the shutdown of the provider failed.
    Failed(OTelSdkError),
}

impl Answer {
    /// Whether it says that a processor refused a span. Its text does not show that.
    pub fn counts_refusals(&self) -> bool
        ensures { result ≡ counts_refusals self.now }
    {
        match self {
            Answer::Ended(refused) => *refused > 0,
            _ => false,
        }
    }
}

/// An answer, and the batches that the provider's first processor exported into memory since the reply before it.
#[derive(Debug, Drop)]
pub struct Reply {
    pub exported: Vec<Vec<SpanData>>,
    pub answer: Answer,
}

impl Model for Reply {
    ghost use Rattle.std.specs.Prelude.{map};
    ghost use Rattle.otel_trace_lines.specs.PlainReply.{PlainReply};

    ghost Value = { PlainReply };

    ghost view = { λ reply. record {
      exported = map (λ batch. batch.items) reply.exported.items;
      answer = reply.answer;
    } };
}
