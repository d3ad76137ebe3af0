//! What a line of the input can ask for.

ghost use Rattle.std.specs.Prelude.{◌≡◌};
ghost use Rattle.otel_trace_lines.specs.Commands.{is_end, may_export, plain_command};

use opentelemetry::Moment;
use opentelemetry::trace::{SpanKind, Status};

/// One request to a session. A span is named by a text of the caller's choice.
#[derive(Debug, Drop)]
pub enum Command {
    /// Start a span under a name, as a child of no other. What kind it is is left open where none is given, as in the
    /// other two starts.
    Start {
        span: String,
        name: String,
        moment: Moment,
        kind: Option<SpanKind>,
    },
    /// Start a span under a name, as a child of the span of another name.
    Child {
        span: String,
        parent: String,
        name: String,
        moment: Moment,
        kind: Option<SpanKind>,
    },
    /// Start a span under a name, in the context that a `traceparent` says (W3C Trace Context): as a child of a span of
    /// another process, or of none where the text says none.
    Remote {
        span: String,
        traceparent: String,
        name: String,
        moment: Moment,
        kind: Option<SpanKind>,
    },
    /// Set an attribute whose value is a text.
    Attr {
        span: String,
        key: String,
        value: String,
    },
    /// Add an event without attributes.
    Event {
        span: String,
        name: String,
        moment: Moment,
    },
    /// Set how the operation of a span went. No line asks for `Unset`.
    Status {
        span: String,
        status: Status,
    },
    /// Tell the headers by which another process continues the trace of a span.
    Inject {
        span: String,
    },
    /// End a span.
    End {
        span: String,
        moment: Moment,
    },
    /// Have each processor of the provider hand on what it holds.
    Flush,
    /// Tell each processor of the provider the time, so that it does what is due.
    Run {
        moment: Moment,
    },
    /// Shut the provider down.
    Shutdown,
    /// Set an attribute whose value is an integer. It is of the extended dialect, as are those below.
    Int {
        span: String,
        key: String,
        value: i64,
    },
    /// Set an attribute whose value is a truth value.
    Bool {
        span: String,
        key: String,
        value: bool,
    },
    /// Set an attribute whose value is a float.
    Float {
        span: String,
        key: String,
        value: f64,
    },
    /// Add a link to the span of another name, without attributes.
    Link {
        span: String,
        target: String,
    },
    /// Record an error: an event with its message and the name of its type.
    Exception {
        span: String,
        exception_type: String,
        moment: Moment,
        message: String,
    },
    /// Add an event with one attribute, whose value is a text.
    EventWithAttribute {
        span: String,
        name: String,
        moment: Moment,
        key: String,
        value: String,
    },
    /// Give up the name of a span that is over.
    Forget {
        span: String,
    },
}

impl Command {
    /// Whether it asks for the end of a span.
    pub fn ends_span(&self) -> bool
        ensures { result ≡ is_end (plain_command self.now) }
    {
        matches!(self, Command::End { .. })
    }

    /// Whether it may have a batch exported: it ends a span, or calls the provider.
    pub fn may_export(&self) -> bool
        ensures { result ≡ may_export (plain_command self.now) }
    {
        matches!(
            self,
            Command::End { .. } | Command::Flush | Command::Run { .. } | Command::Shutdown
        )
    }
}
