//! The two maps of a session's spans: the open ones, and of those that are over who they were.

ghost use Rattle.std.specs.Prelude.{◌≡◌, OnErr, OnOk, is_some};
ghost use Rattle.otel_pipeline.specs.SpanHistory.{ended};
ghost use Rattle.otel_trace_session.specs.OpenSpans.{
  DropsSpan,
  PutsSpan,
  SameSpans,
  by_name,
  finished_by_name,
  named,
  records,
};

use crate::ended_span::EndedSpan;
use otel_pipeline::trace::Span;
use std::alloc::{AllocError, Global};
use std::collections::BTreeMap;

/// Keeps who the span of a name is among those that are over. Where there is no memory, each of these has what it had.
pub(crate) fn keep_identity(
    alloc: Global,
    finished: &mut BTreeMap<String, EndedSpan>,
    name: &str,
    span: &Span,
) -> Result<(), AllocError>
    ensures ok { OnOk result (PutsSpan (finished_by_name finished.old.entries) name.now (ended span.now)
        (finished_by_name finished.new.entries)) }
    ensures err { OnErr result (SameSpans (finished_by_name finished.old.entries)
        (finished_by_name finished.new.entries)) }
{
    let kept = EndedSpan::of(alloc, span)?;
    finished.insert(String::from_str(alloc, name)?, kept)?;
    Ok(())
}

/// Drops what is kept of the span of a name, if there is anything, and says whether there was.
pub(crate) fn drop_identity(finished: &mut BTreeMap<String, EndedSpan>, name: &str) -> bool
    ensures was { result ≡ is_some (named (finished_by_name finished.old.entries) name.now) }
    ensures gone { DropsSpan (finished_by_name finished.old.entries) name.now
        (finished_by_name finished.new.entries) }
{
    let kept = finished.remove(name);
    kept.is_some()
}

/// Whether a name has an open span, and that is recording.
pub(crate) fn has_recording(running: &BTreeMap<String, Span>, name: &str) -> bool
    ensures { result ≡ records (named (by_name running.now.entries) name.now) }
{
    match running.get(name) {
        Some(span) => span.is_recording(),
        None => false,
    }
}

/// Spends the open span of a name, if there is one, and says whether there was.
pub(crate) fn abandon_one(running: &mut BTreeMap<String, Span>, name: &str) -> bool
    ensures was { result ≡ is_some (named (by_name running.old.entries) name.now) }
    ensures gone { DropsSpan (by_name running.old.entries) name.now (by_name running.new.entries) }
{
    match running.remove(name) {
        Some(span) => {
            span.abandon();
            true
        }
        None => false,
    }
}

/// Spends all open spans. The last one goes first, since none then moves up in its place.
pub(crate) fn abandon_all(mut spans: BTreeMap<String, Span>) {
    while let Some((_name, span)) = spans.pop_last() {
        span.abandon();
    }
    spans.destroy_empty();
}
