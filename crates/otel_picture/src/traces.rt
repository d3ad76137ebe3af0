//! Traces as they are drawn: of each its spans, and a row a span.

ghost use Rattle.std.specs.Prelude.{◌≡◌, ◌<◌, ◌==◌, All, IfOk, length, map};
ghost use Rattle.otel_picture.specs.Traces.{AllHaveSpans, AreTraces, IsTraceAt, plain_trace};

use crate::families::{Group, family_of, groups_of};
use crate::rows::rows;
use crate::trace::Trace;
use otel_shown::ShownSpan;
use std::alloc::{AllocError, Global};

/// Spans and their traces, or some of these.
#[derive(Drop)]
pub struct Traces<'a> {
    pub(crate) spans: &'a [ShownSpan],
    pub(crate) traces: Vec<Trace>,
    ghost there: { AllHaveSpans spans.now traces.items },
}

fn trace_of(alloc: Global, spans: &[ShownSpan], group: &Group) -> Result<Trace, AllocError>
    requires { All (λ place. place < length spans.now) group.now.places.items }
    ensures { IfOk result (λ trace.
        IsTraceAt spans.now group.now.trace_id group.now.places.items (plain_trace trace)) }
{
    let family = family_of(alloc, spans, &group.places)?;
    let rows = rows(alloc, &family)?;
    Ok(Trace {
        trace_id: group.trace_id,
        family,
        rows,
    })
}

/// The traces of spans, in the order in which each first comes.
fn traces_of(alloc: Global, spans: &[ShownSpan]) -> Result<Vec<Trace>, AllocError>
    ensures { IfOk result (λ traces. AreTraces spans.now (map plain_trace traces.items)) }
{
    let groups = groups_of(alloc, spans)?;
    let mut traces = Vec::with_capacity(alloc, groups.len())?;
    for group in &groups {
        traces.push(trace_of(alloc, spans, group)?)?;
    }
    Ok(traces)
}

impl<'a> Traces<'a> {
    ghost use Rattle.otel_picture.specs.Drawn.{AreTracesOf, plain_traces};

    /// The traces of spans, which stand in order of export. They come in the order in which each first comes. Memory is
    /// taken for some 100 bytes a span, and for as much again while the rows of a trace are put in.
    pub fn of(alloc: Global, spans: &'a [ShownSpan]) -> Result<Traces<'a>, AllocError>
        ensures { IfOk result (λ traces. AreTracesOf spans.now (plain_traces traces)) }
    {
        let traces = traces_of(alloc, spans)?;
        Ok(Traces { spans, traces })
    }

    /// Whether there are none.
    pub fn is_empty(&self) -> bool
        ensures { result ≡ (length (plain_traces self.now).traces == 0) }
    {
        self.traces.is_empty()
    }
}
