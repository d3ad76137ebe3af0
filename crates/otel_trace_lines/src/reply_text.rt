//! The texts of replies. Each reply's text is put together in a `String`, which a refusal for memory leaves unfinished,
//! and is then written whole by `write_text` or not at all.

ghost use Rattle.std.specs.Prelude.{◌≡◌, ◌++◌, [], IsOk, OnOk, OnErr, map, string_bytes};
ghost use Rattle.opentelemetry.specs.Text.{TextGrows};
ghost use Rattle.otel_console.specs.SpanText.{line, span_lines};
ghost use Rattle.otel_export.specs.PlainSpanData.{spans_in};
ghost use Rattle.otel_propagation.specs.Traceparent.{context_text};
ghost use Rattle.otel_trace_lines.specs.AnswerText.{answer_line, reply_text};
ghost use Rattle.otel_trace_lines.specs.ReplyText.{dropped_line, header_line, headers_lines, started_line};

use crate::reply::Answer;
use opentelemetry::{SpanId, TraceFlags, TraceId};
use otel_console::span_text::push_spans;
use otel_export::trace::SpanData;
use otel_lines::digits::Digits;
use std::alloc::AllocError;
use std::fmt::Write;

/// The lines of the spans of batches, in order.
fn push_batches(text: &mut String, batches: &[Vec<SpanData>]) -> Result<(), AllocError>
    ensures grown { OnOk result
        (TextGrows text.old (span_lines (spans_in (map (λ batch. batch.items) batches.now))) text.new) }
    ensures free { spans_in (map (λ batch. batch.items) batches.now) ≡ [] → IsOk result }
{
    for batch in batches {
        push_spans(text, batch)?;
    }
    Ok(())
}

/// Who a span is, at the end of a line.
fn push_context(
    text: &mut String,
    trace_id: TraceId,
    span_id: SpanId,
    trace_flags: TraceFlags,
) -> Result<(), AllocError>
    ensures { OnOk result (TextGrows text.old (line (context_text trace_id span_id trace_flags)) text.new) }
{
    let mut digits = Digits::new();
    digits.put(b'\n');
    digits.put_flags(trace_flags);
    digits.put(b'-');
    digits.put_span_id(span_id);
    digits.put(b'-');
    digits.put_trace_id(trace_id);
    text.push_str("00-")?;
    text.push_str(digits.as_str())
}

/// `started` and who the new span is.
#[tactic(auto, using(std::proofs::lemmas::List::append_assoc))]
fn push_started(
    text: &mut String,
    trace_id: TraceId,
    span_id: SpanId,
    trace_flags: TraceFlags,
) -> Result<(), AllocError>
    ensures { OnOk result (TextGrows text.old (started_line trace_id span_id trace_flags) text.new) }
{
    text.push_str("started ")?;
    push_context(text, trace_id, span_id, trace_flags)
}

/// `dropped` and who the new span is.
#[tactic(auto, using(std::proofs::lemmas::List::append_assoc))]
fn push_dropped(
    text: &mut String,
    trace_id: TraceId,
    span_id: SpanId,
    trace_flags: TraceFlags,
) -> Result<(), AllocError>
    ensures { OnOk result (TextGrows text.old (dropped_line trace_id span_id trace_flags) text.new) }
{
    text.push_str("dropped ")?;
    push_context(text, trace_id, span_id, trace_flags)
}

/// The line of a header: its name, `=` and its text.
#[tactic(auto, using(std::proofs::lemmas::List::append_assoc))]
fn push_header(text: &mut String, name: &str, value: &str) -> Result<(), AllocError>
    ensures { OnOk result (TextGrows text.old (header_line name.now value.now) text.new) }
{
    write!(text, "{name}={value}")?;
    text.push('\n')
}

/// A line for each of both headers.
#[tactic(auto, using(std::proofs::lemmas::List::append_assoc))]
fn push_headers(text: &mut String, parent: &str, state: &str) -> Result<(), AllocError>
    ensures { OnOk result (TextGrows text.old (headers_lines parent.now state.now) text.new) }
{
    push_header(text, "traceparent", parent)?;
    push_header(text, "tracestate", state)
}

/// The line of an answer.
fn push_answer(text: &mut String, answer: Answer) -> Result<(), AllocError>
    ensures { OnOk result (TextGrows text.old (answer_line answer) text.new) }
{
    match answer {
        Answer::Started(span) => push_started(text, span.trace_id, span.span_id, span.trace_flags),
        Answer::Dropped(span) => push_dropped(text, span.trace_id, span.span_id, span.trace_flags),
        Answer::Ok => text.push_str("ok\n"),
        Answer::Headers {
            traceparent,
            tracestate,
        } => push_headers(text, traceparent.as_str(), tracestate.as_str()),
        Answer::NoHeaders => text.push_str("no headers\n"),
        Answer::Ignored => text.push_str("ignored\n"),
        Answer::NoSuchSpan => text.push_str("no such span\n"),
        Answer::SpanExists => text.push_str("span exists\n"),
        Answer::StillOpen => text.push_str("still open\n"),
        Answer::Ended(_) => text.push_str("ended\n"),
        Answer::Failed(error) => writeln!(text, "{error}"),
    }
}

/// Puts the lines of a reply into a text in place of what it held: those of the exported spans, and the answer's.
fn put_reply(
    text: &mut String,
    exported: &[Vec<SpanData>],
    answer: Answer,
) -> Result<(), AllocError>
    ensures { OnOk result (string_bytes text.new
        ≡ reply_text (record { exported = map (λ batch. batch.items) exported.now; answer = answer })) }
{
    text.clear();
    push_batches(text, exported)?;
    push_answer(text, answer)
}

/// Writes the lines of exported batches, or nothing where memory runs out. Where they have no span, none is wanted. The
/// text is put together in `text`, whose room serves one text after another.
pub fn write_batches(
    text: &mut String,
    out: &mut Vec<u8>,
    exported: &[Vec<SpanData>],
) -> Result<(), AllocError>
    ensures ok { OnOk result (out.new.items
        ≡ out.old.items ++ span_lines (spans_in (map (λ batch. batch.items) exported.now))) }
    ensures err { OnErr result (out.new.items ≡ out.old.items) }
    ensures free { spans_in (map (λ batch. batch.items) exported.now) ≡ [] → IsOk result }
{
    text.clear();
    push_batches(text, exported)?;
    write_text(out, text.as_str())
}

/// Writes a whole reply, or nothing where memory runs out: the spans are read where the exporter keeps them. The text
/// is put together in `text`, as above.
pub fn write_reply(
    text: &mut String,
    out: &mut Vec<u8>,
    exported: &[Vec<SpanData>],
    answer: Answer,
) -> Result<(), AllocError>
    ensures ok { OnOk result (out.new.items ≡ out.old.items
        ++ reply_text (record { exported = map (λ batch. batch.items) exported.now; answer = answer })) }
    ensures err { OnErr result (out.new.items ≡ out.old.items) }
{
    put_reply(text, exported, answer)?;
    write_text(out, text.as_str())
}

/// Puts a whole text after what was written, or nothing where memory runs out.
pub fn write_text(out: &mut Vec<u8>, text: &str) -> Result<(), AllocError>
    ensures ok { OnOk result (out.new.items ≡ out.old.items ++ text.now) }
    ensures err { OnErr result (out.new.items ≡ out.old.items) }
    ensures free { text.now ≡ [] → IsOk result }
{
    out.extend_from_slice(text.as_bytes())
}
