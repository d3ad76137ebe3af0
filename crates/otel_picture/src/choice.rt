//! Which traces are drawn.

ghost use Rattle.std.specs.Prelude.{◌≡◌, ◌<◌, All, IfOk, length, map};
ghost use Rattle.std.specs.List.{filter};
ghost use Rattle.std.specs.List.Sorted.{IsPermutation, IsSortedBy};
ghost use Rattle.otel_picture.specs.Families.{HaveSpans};
ghost use Rattle.otel_picture.specs.Choices.{
  IsChosen,
  first_place,
  has_error,
  has_id,
  is_chosen,
  is_slower,
  trace_length,
};
ghost use Rattle.otel_picture.specs.Drawn.{plain_traces};
ghost use Rattle.otel_picture.specs.Traces.{AllHaveSpans, plain_trace};

use crate::bar::Scale;
use crate::sheet::is_error;
use crate::trace::Trace;
use crate::traces::Traces;
use opentelemetry::TraceId;
use otel_shown::ShownSpan;
use std::alloc::{AllocError, Global};
use std::cmp::Reverse;

/// Which traces are drawn: of those that have what is asked for, all or the slowest.
#[derive(Clone, Copy, Debug, PartialEq, Eq)]
pub struct Choice {
    /// The trace of this id alone.
    pub trace_id: Option<TraceId>,
    /// Those alone in which a span failed.
    pub errors_only: bool,
    /// So many at most, the longest first, and of two of one length that which came first.
    pub slowest: Option<usize>,
    /// Whether attributes stand under the rows of the text form; it chooses no trace.
    pub attributes: bool,
}

/// All traces, in their order.
pub const EVERY: Choice = Choice {
    trace_id: None,
    errors_only: false,
    slowest: None,
    attributes: false,
};

/// Whether a span of a trace failed.
fn has_error(spans: &[ShownSpan], trace: &Trace) -> bool
    requires { HaveSpans spans.now trace.now.family.marks.items }
    ensures { result ≡ has_error spans.now (plain_trace trace.now) }
{
    for mark in &trace.family.marks {
        let span = &spans[mark.place];
        if is_error(&span.status) {
            return true;
        }
    }
    false
}

/// Whether a trace has an id, if one is asked for.
fn has_id(trace_id: Option<TraceId>, trace: &Trace) -> bool
    ensures { result ≡ has_id trace_id (plain_trace trace.now) }
{
    match trace_id {
        Some(id) => trace.trace_id == id,
        None => true,
    }
}

/// How long a trace was.
fn length_of(trace: &Trace) -> u64
    ensures { result ≡ trace_length (plain_trace trace.now) }
{
    let scale = Scale::of(&trace.family.marks, 1);
    scale.last - scale.first
}

/// Where its first span stands.
fn first_place(trace: &Trace) -> usize
    ensures { result ≡ first_place (plain_trace trace.now) }
{
    match trace.family.marks.first() {
        Some(mark) => mark.place,
        None => 0,
    }
}

/// Puts the longest first.
fn sort_by_length(traces: &mut Vec<Trace>)
    ensures same { IsPermutation traces.old.items traces.new.items }
    ensures sorted { IsSortedBy is_slower (map plain_trace traces.new.items) }
{
    traces.sort_unstable_by_key(|trace| (Reverse(length_of(trace)), first_place(trace)));
}

impl Choice {
    /// Whether a trace may be drawn, whatever its length.
    fn takes(&self, spans: &[ShownSpan], trace: &Trace) -> bool
        requires { HaveSpans spans.now trace.now.family.marks.items }
        ensures { result ≡ is_chosen self.now spans.now (plain_trace trace.now) }
    {
        has_id(self.trace_id, trace) && (!self.errors_only || has_error(spans, trace))
    }

    /// Those of traces that may be drawn.
    fn taken(
        &self,
        alloc: Global,
        spans: &[ShownSpan],
        traces: Vec<Trace>,
    ) -> Result<Vec<Trace>, AllocError>
        requires there { AllHaveSpans spans.now traces.items }
        ensures is { IfOk result (λ taken. map plain_trace taken.items
            ≡ filter (is_chosen self.now spans.now) (map plain_trace traces.items)) }
        ensures there { IfOk result (λ taken. AllHaveSpans spans.now taken.items) }
    {
        let mut taken = Vec::new(alloc);
        for trace in traces {
            if self.takes(spans, &trace) {
                taken.push(trace)?;
            }
        }
        Ok(taken)
    }
}

impl<'a> Traces<'a> {
    /// What a choice leaves of these.
    pub fn chosen(self, alloc: Global, choice: Choice) -> Result<Traces<'a>, AllocError>
        ensures { IfOk result (λ chosen. IsChosen choice (plain_traces self.entry) (plain_traces chosen)) }
    {
        let Traces { spans, traces } = self;
        let taken = choice.taken(alloc, spans, traces)?;
        match choice.slowest {
            Some(count) => {
                let mut traces = taken;
                sort_by_length(&mut traces);
                traces.truncate(count);
                Ok(Traces { spans, traces })
            }
            None => Ok(Traces {
                spans,
                traces: taken,
            }),
        }
    }
}
