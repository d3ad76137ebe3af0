//! Reads a span context from the header `uber-trace-id`. Digits are in lower case, as Jaeger's clients write them.

ghost use Rattle.std.specs.Prelude.{◌≡◌, ◌<◌, ◌≤◌, ◌^◌, ◌++◌, ℕ, List, All, IfSome, MatchOption, true, false};
ghost use Rattle.opentelemetry.specs.Hex.{IsHexDigit};
ghost use Rattle.otel_propagators.specs.Reading.{IsFound, remote_span};
ghost use Rattle.otel_propagators.specs.UberTraceId.{colon_text, flags_read};
ghost use Rattle.otel_propagators.specs.UberTraceId.{IsNumber, IsUberTraceId, SaysContext, SaysField};

use opentelemetry::trace::{SpanContext, TraceState};
use opentelemetry::trace_context::number_from_hex;
use opentelemetry::{SpanId, TraceFlags, TraceId};

/// The span context that the header says, escaped or not.
pub fn read_header(text: &str) -> Option<SpanContext>
    ensures { IsFound (IsUberTraceId text.now) result }
{
    match read_context(text, false) {
        Some(span_context) => Some(span_context),
        None => read_context(text, true),
    }
}

/// The span context that the header says in one of both ways.
fn read_context(text: &str, escaped: bool) -> Option<SpanContext>
    ensures { IsFound (SaysContext escaped text.now) result }
{
    let (trace_id, after_trace) = read_field(text, escaped, 32)?;
    let (span_id, after_span) = read_field(after_trace, escaped, 16)?;
    let (_parent, flags_text) = read_field(after_span, escaped, 16)?;
    let flags = read_number(flags_text, 2)?;
    if trace_id == 0 {
        return None;
    }
    if span_id == 0 {
        return None;
    }
    Some(remote_context(trace_id, span_id, flags))
}

/// The context of a span of another process.
fn remote_context(trace_id: u128, span_id: u128, flags: u128) -> SpanContext
    requires { span_id < 16 ^ 16 }
    ensures { result ≡ remote_span trace_id span_id (flags_read flags) }
{
    SpanContext::new(
        TraceId::from(trace_id),
        SpanId::from(span_id as u64),
        flags_of(flags),
        true,
        TraceState::new(),
    )
}

/// The number in front of a colon, and what stands after that.
fn read_field(text: &str, escaped: bool, most: usize) -> Option<(u128, &str)>
    requires { most ≤ 32 }
    ensures { MatchOption result
        ((number : ℕ) (rest : List ℕ) → ¬ (SaysField escaped most text.now number rest))
        (λ field. SaysField escaped most text.now field.0 field.1.now) }
{
    let (front, rest) = cut(text, escaped)?;
    Some((read_number(front, most)?, rest))
}

/// What stands before the first colon, and what stands after it.
fn cut(text: &str, escaped: bool) -> Option<(&str, &str)>
    ensures value { IfSome result (λ parts. text.now ≡ parts.0.now ++ (colon_text escaped ++ parts.1.now)) }
    ensures only { (front rest : List ℕ) → All IsHexDigit front
        → text.now ≡ front ++ (colon_text escaped ++ rest)
        → MatchOption result ⊥ (λ parts. (parts.0.now ≡ front) × (parts.1.now ≡ rest)) }
{
    if escaped {
        cut_escaped(text)
    } else {
        cut_plain(text)
    }
}

fn cut_plain(text: &str) -> Option<(&str, &str)>
    ensures value { IfSome result (λ parts. text.now ≡ parts.0.now ++ (colon_text false ++ parts.1.now)) }
    ensures only { (front rest : List ℕ) → All IsHexDigit front
        → text.now ≡ front ++ (colon_text false ++ rest)
        → MatchOption result ⊥ (λ parts. (parts.0.now ≡ front) × (parts.1.now ≡ rest)) }
{
    text.split_once(':')
}

fn cut_escaped(text: &str) -> Option<(&str, &str)>
    ensures value { IfSome result (λ parts. text.now ≡ parts.0.now ++ (colon_text true ++ parts.1.now)) }
    ensures only { (front rest : List ℕ) → All IsHexDigit front
        → text.now ≡ front ++ (colon_text true ++ rest)
        → MatchOption result ⊥ (λ parts. (parts.0.now ≡ front) × (parts.1.now ≡ rest)) }
{
    let (front, after) = text.split_once('%')?;
    Some((front, after.strip_prefix("3A")?))
}

/// The number that a text of one to `most` digits says.
fn read_number(text: &str, most: usize) -> Option<u128>
    requires { most ≤ 32 }
    ensures { IsFound (IsNumber most text.now) result }
{
    let count = text.len();
    if count == 0 {
        return None;
    }
    if count > most {
        return None;
    }
    number_from_hex(text, count)
}

/// The trace flags of the header's flags.
fn flags_of(flags: u128) -> TraceFlags
    ensures { result ≡ flags_read flags }
{
    if flags % 2 == 0 {
        TraceFlags::new(0)
    } else if flags / 2 % 2 == 0 {
        TraceFlags::new(1)
    } else {
        TraceFlags::new(5)
    }
}
