//! Pictures of traces as text.

ghost use Rattle.std.specs.Prelude.{◌≡◌, true, ◌<◌, IfOk, OnOk, map, string_bytes};
ghost use Rattle.opentelemetry.specs.Text.{TextGrows};
ghost use Rattle.otel_picture.specs.Drawn.{plain_traces};
ghost use Rattle.otel_picture.specs.Layouts.{layout_with};
ghost use Rattle.otel_picture.specs.RowTexts.{
  apart_text,
  errors_text,
  head_text,
  legend_text,
  picture_text,
  ruler_text,
  service_text,
  title_text,
  trace_text,
  traces_text,
};
ghost use Rattle.otel_picture.specs.PlainSheets.{errors_in};
ghost use Rattle.otel_picture.specs.Sheets.{plain_sheet};
ghost use Rattle.otel_picture.specs.Traces.{AllHaveSpans, plain_trace};

use crate::axis::push_axis;
use crate::durations::push_duration;
use crate::layout::Layout;
use crate::sheet::{Sheet, first_service};
use crate::texts::{push_in_room, push_shown};
use crate::trace::Trace;
use crate::traces::Traces;
use otel_shown::ShownSpan;
use std::alloc::{AllocError, Global};
use std::fmt::Write;

/// What the numbers are.
fn push_legend(text: &mut String, layout: Layout) -> Result<(), AllocError>
    ensures { OnOk result (TextGrows text.old (legend_text layout) text.new) }
{
    if layout.has_numbers {
        text.push_str("    start   length")?;
    }
    if layout.has_self_time {
        text.push_str("     self")?;
    }
    Ok(())
}

impl Sheet<'_> {
    /// A trace, and how many spans it has.
    pub(crate) fn push_title(&self, text: &mut String) -> Result<(), AllocError>
        ensures { OnOk result (TextGrows text.old (title_text (plain_sheet self.now)) text.new) }
    {
        let trace = self.trace.trace_id;
        let count = self.trace.family.marks.len();
        write!(text, "trace {trace}  spans: {count}  ")
    }

    /// How many spans failed, where any did.
    pub(crate) fn push_errors(&self, text: &mut String) -> Result<(), AllocError>
        ensures { OnOk result (TextGrows text.old (errors_text (errors_in (plain_sheet self.now))) text.new) }
    {
        let errors = self.errors();
        if errors == 0 {
            return Ok(());
        }
        write!(text, "  errors: {errors}")
    }

    /// The same, how long it was, and how many spans failed.
    fn push_head(&self, text: &mut String) -> Result<(), AllocError>
        ensures { OnOk result (TextGrows text.old (head_text (plain_sheet self.now)) text.new) }
    {
        self.push_title(text)?;
        push_duration(text, self.scale.last - self.scale.first)?;
        self.push_errors(text)?;
        text.push('\n')?;
        Ok(())
    }

    /// The service that all of its spans have; none where they have several.
    pub(crate) fn service_of(&self, alloc: Global) -> Result<String, AllocError>
        ensures { IfOk result (λ service. string_bytes service ≡ service_text (plain_sheet self.now)) }
    {
        let mut service = String::new(alloc);
        if !self.is_mixed {
            let first = first_service(self.spans, &self.trace.family.marks);
            push_shown(&mut service, first)?;
        }
        Ok(service)
    }

    /// The line above the rows: the service, where all have one, the axis, and what the numbers are.
    fn push_ruler(&self, alloc: Global, text: &mut String) -> Result<(), AllocError>
        ensures { OnOk result (TextGrows text.old (ruler_text (plain_sheet self.now)) text.new) }
    {
        let service = self.service_of(alloc)?;
        push_in_room(text, service.as_str(), self.layout.name)?;
        text.push(' ')?;
        push_axis(
            alloc,
            text,
            self.scale.last - self.scale.first,
            self.layout.bar,
        )?;
        push_legend(text, self.layout)?;
        text.push('\n')
    }

    fn push_trace(&self, alloc: Global, text: &mut String) -> Result<(), AllocError>
        ensures { OnOk result (TextGrows text.old (trace_text (plain_sheet self.now)) text.new) }
    {
        self.push_head(text)?;
        self.push_ruler(alloc, text)?;
        self.push_rows(alloc, text)
    }

    /// A trace, after an empty line where it is not the first one.
    fn push_apart(&self, alloc: Global, text: &mut String, is_first: bool) -> Result<(), AllocError>
        ensures { OnOk result (TextGrows text.old (apart_text is_first (plain_sheet self.now)) text.new) }
    {
        if is_first {
            return self.push_trace(alloc, text);
        }
        text.push('\n')?;
        self.push_trace(alloc, text)
    }
}

/// Appends traces, with an empty line between them.
fn push_traces(
    alloc: Global,
    text: &mut String,
    spans: &[ShownSpan],
    traces: &[Trace],
    layout: Layout,
) -> Result<(), AllocError>
    requires wide { 0 < layout.bar }
    requires there { AllHaveSpans spans.now traces.now }
    ensures { OnOk result (TextGrows text.old
        (traces_text layout spans.now true (map plain_trace traces.now)) text.new) }
{
    let mut left = traces;
    let mut is_first = true;
    while let Some((trace, rest)) = left.split_first() {
        Sheet::of(spans, trace, layout).push_apart(alloc, text, is_first)?;
        left = rest;
        is_first = false;
    }
    Ok(())
}

impl Traces<'_> {
    /// The pictures of traces, for so many columns, of which 20 at least and 400 at most count; with the attributes of
    /// spans, events and links, and all events, under the rows or without.
    pub fn to_text(
        &self,
        alloc: Global,
        columns: u32,
        attributes: bool,
    ) -> Result<Vec<u8>, AllocError>
        ensures { IfOk result (λ text. text.items ≡ picture_text columns attributes (plain_traces self.now)) }
    {
        let mut text = String::new(alloc);
        push_traces(
            alloc,
            &mut text,
            self.spans,
            &self.traces,
            Layout::with_attributes(columns, attributes),
        )?;
        Ok(text.into_bytes())
    }
}
