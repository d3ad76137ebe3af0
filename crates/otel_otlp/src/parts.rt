//! What a request has in each encoding: the numbers that the protocol gives to flags, kinds and statuses, and runs of
//! spans of one scope.

ghost use Rattle.std.specs.Prelude.{◌≡◌, ◌≤◌, ◌↔◌, ◌∷◌, IsTrue, drop, length, take};
ghost use Rattle.opentelemetry.specs.PlainValues.{plain_status};
ghost use Rattle.otel_otlp.specs.OtlpSpan.{code_number, flags_of, kind_number, message_text};
ghost use Rattle.otel_otlp.specs.ScopeRuns.{scope_runs};

use opentelemetry::TraceFlags;
use opentelemetry::trace::{SpanKind, Status};
use otel_export::trace::SpanData;

/// The number of the flags of a trace, with bit 8, and bit 9 where a context came from elsewhere (OTLP, `SpanFlags`).
pub fn flags_of(flags: TraceFlags, is_remote: bool) -> u32
    ensures { result ≡ flags_of flags is_remote }
{
    let remote = if is_remote { 512 } else { 0 };
    flags.to_u8() as u32 + 256 + remote
}

/// The number of a kind (OTLP, `SpanKind`).
pub fn kind_number(kind: SpanKind) -> u64
    ensures { result ≡ kind_number kind }
{
    match kind {
        SpanKind::Internal => 1,
        SpanKind::Server => 2,
        SpanKind::Client => 3,
        SpanKind::Producer => 4,
        SpanKind::Consumer => 5,
    }
}

/// What a status says; nothing where it is no error.
pub fn message_of(status: &Status) -> &str
    ensures { result.now ≡ message_text (plain_status status.now) }
{
    match status {
        Status::Unset | Status::Ok => "",
        Status::Error { description } => description.as_str(),
    }
}

/// The number of a status (OTLP, `StatusCode`).
pub fn code_number(status: &Status) -> u64
    ensures { result ≡ code_number (plain_status status.now) }
{
    match status {
        Status::Unset => 0,
        Status::Ok => 1,
        Status::Error { .. } => 2,
    }
}

/// Whether two spans have one scope.
fn has_scope_of(span: &SpanData, other: &SpanData) -> bool
    ensures { IsTrue result ↔ (span.now.instrumentation_scope ≡ other.now.instrumentation_scope) }
{
    span.instrumentation_scope == other.instrumentation_scope
}

/// How many of the spans after the first one are in its run.
pub fn run_length(first: &SpanData, after: &[SpanData]) -> usize
    ensures within { result ≤ length after.now }
    ensures run { scope_runs (first.now ∷ after.now)
        ≡ (first.now ∷ take result after.now) ∷ scope_runs (drop result after.now) }
{
    let mut count = 0;
    while count < after.len() && has_scope_of(&after[count], first) {
        count += 1;
    }
    count
}
