//! Writes the headers of a span context. All texts are made before one is set.

ghost use Rattle.std.specs.Prelude.{◌≡◌, ◌++◌, IfOk, OnOk, OnErr, string_bytes};
ghost use Rattle.std.specs.Option.{option_copied};
ghost use Rattle.otel_propagators.specs.B3.{state_mark, state_of};
ghost use Rattle.otel_propagators.specs.B3Headers.{headers_of, many_headers, plain_headers, single_headers};
ghost use Rattle.otel_propagators.specs.B3Headers.{single_text, state_headers, SetsInTurn, SetsSome};

use crate::b3::encoding::B3Encoding;
use crate::b3::field::Field;
use crate::b3::sampling_state::SamplingState;
use opentelemetry::propagation::Injector;
use opentelemetry::trace::SpanContext;
use std::alloc::{AllocError, Global};

/// How long the single header of an accepted trace is, in bytes.
const SINGLE_BYTES: usize = 51;

/// Sets headers, one after the other.
pub fn set_all<I: Injector>(
    injector: &mut I,
    headers: Vec<(Field, String)>,
) -> Result<(), AllocError>
    ensures ok { OnOk result
        (SetsInTurn (I.texts injector.old) (plain_headers headers.items) (I.texts injector.new)) }
    ensures err { OnErr result
        (SetsSome (I.texts injector.old) (plain_headers headers.items) (I.texts injector.new)) }
{
    for (field, text) in headers {
        injector.set(field.name(), text)?;
    }
    Ok(())
}

/// The headers of a span context in an encoding.
pub fn headers_of(
    alloc: Global,
    encoding: B3Encoding,
    span_context: &SpanContext,
) -> Result<Vec<(Field, String)>, AllocError>
    ensures { IfOk result (λ headers. plain_headers headers.items ≡ headers_of encoding span_context.now) }
{
    let mut headers = Vec::new(alloc);
    match encoding {
        B3Encoding::MultipleHeader => push_many(alloc, &mut headers, span_context)?,
        B3Encoding::SingleHeader => push_single(alloc, &mut headers, span_context)?,
        B3Encoding::SingleAndMultiHeader => {
            push_single(alloc, &mut headers, span_context)?;
            push_many(alloc, &mut headers, span_context)?;
        }
    }
    Ok(headers)
}

fn push_single(
    alloc: Global,
    headers: &mut Vec<(Field, String)>,
    span_context: &SpanContext,
) -> Result<(), AllocError>
    ensures { OnOk result
        (plain_headers headers.new.items ≡ plain_headers headers.old.items ++ single_headers span_context.now) }
{
    headers.push((Field::Single, single_text(alloc, span_context)?))?;
    Ok(())
}

fn push_many(
    alloc: Global,
    headers: &mut Vec<(Field, String)>,
    span_context: &SpanContext,
) -> Result<(), AllocError>
    ensures { OnOk result
        (plain_headers headers.new.items ≡ plain_headers headers.old.items ++ many_headers span_context.now) }
{
    let trace_id = span_context.trace_id();
    let span_id = span_context.span_id();
    headers.push((Field::TraceId, format!(in alloc; "{trace_id}")?))?;
    headers.push((Field::SpanId, format!(in alloc; "{span_id}")?))?;
    push_state(
        alloc,
        headers,
        SamplingState::of(span_context.trace_flags()),
    )
}

/// The header of a sampling state; none of a deferred one.
fn push_state(
    alloc: Global,
    headers: &mut Vec<(Field, String)>,
    state: SamplingState,
) -> Result<(), AllocError>
    ensures { OnOk result
        (plain_headers headers.new.items ≡ plain_headers headers.old.items ++ state_headers state) }
{
    let (field, text) = match state {
        SamplingState::Accept => (Field::Sampled, "1"),
        SamplingState::Deny => (Field::Sampled, "0"),
        SamplingState::Defer => return Ok(()),
        SamplingState::Debug => (Field::Flags, "1"),
    };
    headers.push((field, String::from_str(alloc, text)?))?;
    Ok(())
}

/// The text of the single header.
fn single_text(alloc: Global, span_context: &SpanContext) -> Result<String, AllocError>
    ensures { IfOk result (λ text. string_bytes text ≡ single_text span_context.now) }
{
    let trace_id = span_context.trace_id();
    let span_id = span_context.span_id();
    let mut text = String::with_capacity(alloc, SINGLE_BYTES)?;
    write!(text, "{trace_id}-{span_id}")?;
    if let Some(mark) = mark_of(SamplingState::of(span_context.trace_flags())) {
        write!(text, "-{mark}")?;
    }
    Ok(text)
}

/// What the single header has for a sampling state; a deferred one is left out.
fn mark_of(state: SamplingState) -> Option<&'static str>
    ensures { option_copied result ≡ state_mark state }
{
    match state {
        SamplingState::Accept => Some("1"),
        SamplingState::Deny => Some("0"),
        SamplingState::Defer => None,
        SamplingState::Debug => Some("d"),
    }
}
