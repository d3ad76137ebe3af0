//! Reads a span context from the B3 headers. Ids are in lower-case digits, as the standard writes them.

ghost use Rattle.std.specs.Prelude.{◌≡◌, ◌≢◌, ◌↔◌, Some, All, true, IsTrue};
ghost use Rattle.std.specs.Option.{option_copied};
ghost use Rattle.otel_propagators.specs.B3.{flags_of, hyphen, joined, state_mark};
ghost use Rattle.otel_propagators.specs.B3.{IsLone, IsMany, IsParent, IsSingle, IsSpanId, IsTraceId, SaysDecision};
ghost use Rattle.otel_propagators.specs.B3.{SaysMany, SaysState};
ghost use Rattle.otel_propagators.specs.B3Headers.{SaysSpan};
ghost use Rattle.otel_propagators.specs.Reading.{IsFound, remote_span};

use crate::b3::field::Field;
use crate::b3::sampling_state::SamplingState;
use opentelemetry::propagation::Extractor;
use opentelemetry::trace::{SpanContext, TraceState};
use opentelemetry::trace_context::number_from_hex;
use opentelemetry::{SpanId, TraceId};

/// The span context that a carrier's headers say: the single one first, then the many.
pub fn read_span<X: Extractor>(extractor: &X) -> Option<SpanContext>
    ensures { IsFound (SaysSpan (X.reads extractor.now)) result }
{
    match read_single(extractor.get(Field::Single.name()).unwrap_or("")) {
        Some(span_context) => Some(span_context),
        None => read_many(extractor),
    }
}

/// The span context that the single header says.
fn read_single(text: &str) -> Option<SpanContext>
    ensures { IsFound (IsSingle text.now) result }
{
    let (front, after) = cut(text);
    let after = after?;
    let trace_id = read_trace_id(front)?;
    let (front, rest) = cut(after);
    let span_id = read_span_id(front)?;
    let state = read_state(rest)?;
    Some(remote_context(trace_id, span_id, state))
}

/// The span context that the many headers say.
fn read_many<X: Extractor>(extractor: &X) -> Option<SpanContext>
    ensures { IsFound (IsMany (X.reads extractor.now)) result }
{
    let trace_text = extractor.get(Field::TraceId.name())?;
    let span_text = extractor.get(Field::SpanId.name())?;
    let trace_id = read_trace_id(trace_text)?;
    let span_id = read_span_id(span_text)?;
    let state = read_decision(
        extractor.get(Field::Single.name()),
        extractor.get(Field::Flags.name()),
        extractor.get(Field::Sampled.name()),
    )?;
    Some(remote_context(trace_id, span_id, state))
}

/// What stands before the first hyphen, and what stands after it where there is one.
fn cut(text: &str) -> (&str, Option<&str>)
    ensures parts { text.now ≡ joined result.0.now (option_copied result.1) }
    ensures first { All (λ b. b ≢ hyphen) result.0.now }
{
    match text.split_once('-') {
        Some((front, after)) => (front, Some(after)),
        None => (text, None),
    }
}

/// The trace id that a text of 32 or 16 digits says.
fn read_trace_id(text: &str) -> Option<TraceId>
    ensures { IsFound (IsTraceId text.now) result }
{
    let number = match number_from_hex(text, 32) {
        Some(number) => number,
        None => number_from_hex(text, 16)?,
    };
    if number == 0 {
        return None;
    }
    Some(TraceId::from(number))
}

/// The span id that a text of 16 digits says.
fn read_span_id(text: &str) -> Option<SpanId>
    ensures { IsFound (IsSpanId text.now) result }
{
    let number = number_from_hex(text, 16)?;
    if number == 0 {
        return None;
    }
    Some(SpanId::from(number as u64))
}

/// The sampling state that the single header says after the span id.
fn read_state(rest: Option<&str>) -> Option<SamplingState>
    ensures { IsFound (SaysState (option_copied rest.entry)) result }
{
    let Some(text) = rest else {
        return Some(SamplingState::Defer);
    };
    if number_from_hex(text, 16).is_some() {
        return Some(SamplingState::Defer);
    }
    let (mark, parent) = cut(text);
    if !is_parent(parent) {
        return None;
    }
    read_mark(mark)
}

/// Whether what stands where a parent's id may stand is none or one.
fn is_parent(text: Option<&str>) -> bool
    ensures { IsTrue result ↔ IsParent (option_copied text.entry) }
{
    match text {
        Some(digits) => number_from_hex(digits, 16).is_some(),
        None => true,
    }
}

/// The sampling state that one character says.
fn read_mark(text: &str) -> Option<SamplingState>
    ensures { IsFound (λ state. state_mark state ≡ Some text.now) result }
{
    match text {
        "1" => Some(SamplingState::Accept),
        "0" => Some(SamplingState::Deny),
        "d" => Some(SamplingState::Debug),
        _ => None,
    }
}

/// The sampling state beside the ids of the many headers: that of a single header which says one alone, and else theirs.
fn read_decision(
    single: Option<&str>,
    flags: Option<&str>,
    sampled: Option<&str>,
) -> Option<SamplingState>
    ensures { IsFound (SaysDecision (option_copied single.entry) (option_copied flags.entry)
        (option_copied sampled.entry)) result }
{
    match read_lone(single) {
        Some(state) => Some(state),
        None => read_flags(flags, sampled),
    }
}

/// The sampling state that the single header says alone.
fn read_lone(single: Option<&str>) -> Option<SamplingState>
    ensures { IsFound (IsLone (option_copied single.entry)) result }
{
    match single {
        Some(text) => read_mark(text),
        None => None,
    }
}

/// The sampling state that the headers of flags and of the decision say.
fn read_flags(flags: Option<&str>, sampled: Option<&str>) -> Option<SamplingState>
    ensures { IsFound (SaysMany (option_copied flags.entry) (option_copied sampled.entry)) result }
{
    if let Some("1") = flags {
        return Some(SamplingState::Debug);
    }
    match sampled {
        None => Some(SamplingState::Defer),
        Some("1" | "true") => Some(SamplingState::Accept),
        Some("0" | "false") => Some(SamplingState::Deny),
        Some(_) => None,
    }
}

/// The context of a span of another process.
fn remote_context(trace_id: TraceId, span_id: SpanId, state: SamplingState) -> SpanContext
    ensures { result ≡ remote_span trace_id span_id (flags_of state) }
{
    SpanContext::new(trace_id, span_id, state.flags(), true, TraceState::new())
}
