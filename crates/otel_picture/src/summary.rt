//! Summaries of traces: a line of JSON a trace, for other programs to read.

ghost use Rattle.std.specs.Prelude.{◌≡◌, ◌<◌, ◌++◌, All, IfOk, OnOk, decimal, length, map};
ghost use Rattle.otel_picture.specs.Drawn.{plain_traces};
ghost use Rattle.otel_picture.specs.Sheets.{plain_sheet};
ghost use Rattle.otel_picture.specs.Summaries.{
  count_members,
  number_member,
  root_members,
  summary_line,
  summary_lines,
  summary_members,
  summary_text,
  text_member,
  time_members,
};
ghost use Rattle.otel_picture.specs.Traces.{AllHaveSpans, plain_trace};

use crate::layout::Layout;
use crate::sheet::Sheet;
use crate::trace::Trace;
use crate::traces::Traces;
use json::Writer;
use otel_shown::ShownSpan;
use std::alloc::{AllocError, Global};

/// A member whose value is a text.
pub(crate) fn push_text(out: &mut Writer, key: &str, value: &str) -> Result<(), AllocError>
    ensures before { out.new.before ≡ out.old.before }
    ensures written { OnOk result (out.new.tokens ≡ out.old.tokens ++ text_member key.now value.now) }
{
    out.key(key)?;
    out.string(value)
}

/// A member whose value is a moment, in nanoseconds since 1970, as decimal digits in a text.
pub(crate) fn push_moment(out: &mut Writer, key: &str, moment: u64) -> Result<(), AllocError>
    ensures before { out.new.before ≡ out.old.before }
    ensures written { OnOk result (out.new.tokens ≡ out.old.tokens ++ text_member key.now (decimal moment)) }
{
    out.key(key)?;
    out.quoted_u64(moment)
}

/// A member whose value is a number.
pub(crate) fn push_number(out: &mut Writer, key: &str, value: u64) -> Result<(), AllocError>
    ensures before { out.new.before ≡ out.old.before }
    ensures written { OnOk result (out.new.tokens ≡ out.old.tokens ++ number_member key.now value) }
{
    out.key(key)?;
    out.u64(value)
}

impl Sheet<'_> {
    /// The service and the name of the span of the first row.
    fn push_root(&self, out: &mut Writer) -> Result<(), AllocError>
        ensures before { out.new.before ≡ out.old.before }
        ensures written { OnOk result (out.new.tokens
            ≡ out.old.tokens ++ root_members (plain_sheet self.now) self.now.trace.now.rows.items) }
    {
        match self.trace.rows.first() {
            Some(row) => {
                let span = self.span_of(*row);
                push_text(out, "service", span.resource.service())?;
                push_text(out, "name", span.name.as_str())
            }
            None => Ok(()),
        }
    }

    /// When the trace began, and how long it was.
    fn push_time(&self, out: &mut Writer) -> Result<(), AllocError>
        ensures before { out.new.before ≡ out.old.before }
        ensures written { OnOk result (out.new.tokens ≡ out.old.tokens ++ time_members (plain_sheet self.now)) }
    {
        push_moment(out, "startTimeUnixNano", self.scale.first)?;
        push_number(out, "durationNano", self.scale.last - self.scale.first)
    }

    /// How many spans it has, and how many of them failed.
    fn push_counts(&self, out: &mut Writer) -> Result<(), AllocError>
        ensures before { out.new.before ≡ out.old.before }
        ensures written { OnOk result (out.new.tokens ≡ out.old.tokens ++ count_members (plain_sheet self.now)) }
    {
        push_number(out, "spans", self.trace.family.marks.len() as u64)?;
        push_number(out, "errors", self.errors() as u64)
    }

    /// The members of the object of a trace.
    pub(crate) fn push_members(&self, alloc: Global, out: &mut Writer) -> Result<(), AllocError>
        ensures before { out.new.before ≡ out.old.before }
        ensures written { OnOk result (out.new.tokens ≡ out.old.tokens ++ summary_members (plain_sheet self.now)) }
    {
        let trace_id = self.trace.trace_id;
        let id = format!(in alloc; "{trace_id}")?;
        push_text(out, "traceId", id.as_str())?;
        self.push_root(out)?;
        self.push_time(out)?;
        self.push_counts(out)
    }

    /// Appends the line of a trace.
    fn summarized(&self, alloc: Global, lines: Vec<u8>) -> Result<Vec<u8>, AllocError>
        ensures { IfOk result (λ more. more.items ≡ lines.items ++ summary_line (plain_sheet self.now)) }
    {
        let mut out = Writer::new(lines);
        out.begin_object()?;
        self.push_members(alloc, &mut out)?;
        out.end_object()?;
        let mut more = out.into_inner();
        more.push(b'\n')?;
        Ok(more)
    }
}

/// A line a trace.
fn summary_of(alloc: Global, spans: &[ShownSpan], traces: &[Trace]) -> Result<Vec<u8>, AllocError>
    requires { AllHaveSpans spans.now traces.now }
    ensures { IfOk result (λ lines. lines.items ≡ summary_lines spans.now (map plain_trace traces.now)) }
{
    let mut lines = Vec::new(alloc);
    let mut left = traces;
    while let Some((trace, rest)) = left.split_first() {
        lines = Sheet::of(spans, trace, Layout::svg()).summarized(alloc, lines)?;
        left = rest;
    }
    Ok(lines)
}

impl Traces<'_> {
    /// The summary of traces: a line of JSON for each, with its id, the service and the name of the span of its first
    /// row, when it began, how long it was, how many spans it has and how many of them failed.
    pub fn to_summary(&self, alloc: Global) -> Result<Vec<u8>, AllocError>
        ensures { IfOk result (λ lines. lines.items ≡ summary_text (plain_traces self.now)) }
    {
        summary_of(alloc, self.spans, &self.traces)
    }
}
