//! Pictures of traces as one SVG file of 960 units, without scripts, fonts or links. Its lines are 20 units high: of each
//! trace a head, an axis, a line a span, and an empty one. Names stand left of unit 310, bars from there
//! on over 460 units, offset and length after them. A service has one of eight colours; the bar of a span that
//! failed is hollow, with an edge as dark as text, and `!` stands in front of it. Under a line stand exceptions and links.

ghost use Rattle.std.specs.Prelude.{◌≡◌, ◌<◌, ◌≤◌, All, IfOk, OnOk, length, map, string_bytes};
ghost use Rattle.opentelemetry.specs.Text.{TextGrows};
ghost use Rattle.otel_picture.specs.Drawn.{plain_traces};
ghost use Rattle.otel_picture.specs.Sheets.{plain_sheet};
ghost use Rattle.otel_picture.specs.SvgParts.{down, label_svg};
ghost use Rattle.otel_picture.specs.SvgTexts.{
  last_line,
  line_after_trace,
  svg_axis,
  svg_begin,
  svg_head,
  svg_lines,
  svg_service,
  svg_text,
  svg_trace,
  svg_traces,
};
ghost use Rattle.otel_picture.specs.Traces.{AllHaveSpans, plain_trace};

use crate::axis::push_svg_axis;
use crate::durations::push_duration;
use crate::layout::Layout;
use crate::sheet::Sheet;
use crate::svg_parts::{down, line_after, push_label, push_page, push_root};
use crate::texts::push_cut;
use crate::trace::Trace;
use crate::traces::Traces;
use otel_shown::ShownSpan;
use std::alloc::{AllocError, Global};

const STYLE: &str = concat!(
    "<style>text{font:12px monospace;fill:#1b1b1b}.page{fill:#ffffff}.tick{stroke:#c9c9c9}.event{stroke:#1b1b1b;",
    "stroke-width:2}.s0{fill:#1f5fa8}.s1{fill:#2f7d32}.s2{fill:#8a4fb0}.s3{fill:#b06a00}.s4{fill:#00798c}",
    ".s5{fill:#6b6b00}.s6{fill:#ad1f6b}.s7{fill:#4a5a78}.end{text-anchor:end}",
    ".error{fill-opacity:.25;stroke:#1b1b1b;stroke-width:2}.sign{fill:#c0160d;font-weight:bold}",
    "@media (prefers-color-scheme:dark){text{fill:#eeeeee}.page{fill:#121212}.tick{stroke:#444444}",
    ".event{stroke:#eeeeee}.s0{fill:#7fb4f0}.s1{fill:#7fcf85}.s2{fill:#c9a0e8}.s3{fill:#f0b860}.s4{fill:#6fd0de}",
    ".s5{fill:#cfcf70}.s6{fill:#f090c4}.s7{fill:#a9b9d8}.error{stroke:#eeeeee}",
    ".sign{fill:#ff8a80}}</style>\n"
);

impl Sheet<'_> {
    /// What the head of a trace says.
    fn svg_head_of(&self, alloc: Global) -> Result<String, AllocError>
        ensures { IfOk result (λ head. string_bytes head ≡ svg_head (plain_sheet self.now)) }
    {
        let mut head = String::new(alloc);
        self.push_title(&mut head)?;
        push_duration(&mut head, self.scale.last - self.scale.first)?;
        self.push_errors(&mut head)?;
        Ok(head)
    }

    /// The head of a trace.
    fn push_svg_head(&self, alloc: Global, out: &mut String, line: u64) -> Result<(), AllocError>
        ensures { OnOk result (TextGrows out.old
            (label_svg 10 (down line 15) (svg_head (plain_sheet self.now))) out.new) }
    {
        let head = self.svg_head_of(alloc)?;
        push_label(out, 10, down(line, 15), head.as_str())
    }

    /// On the line after a head the service, where all spans have one.
    fn push_svg_service(&self, alloc: Global, out: &mut String, line: u64) -> Result<(), AllocError>
        ensures { OnOk result (TextGrows out.old (svg_service (plain_sheet self.now) line) out.new) }
    {
        let service = self.service_of(alloc)?;
        let mut cut = String::new(alloc);
        push_cut(&mut cut, service.as_str(), 40)?;
        push_label(out, 10, down(line_after(line, 1), 15), cut.as_str())
    }

    /// On the same line the ticks, which reach over all rows.
    fn push_svg_axis(&self, alloc: Global, out: &mut String, line: u64) -> Result<(), AllocError>
        ensures { OnOk result (TextGrows out.old (svg_axis (plain_sheet self.now) line) out.new) }
    {
        let end = self.line_after_rows(line_after(line, 2));
        let duration = self.scale.last - self.scale.first;
        push_svg_axis(alloc, out, duration, line_after(line, 1), end)
    }

    /// After that line one of each span.
    fn push_svg_lines(&self, alloc: Global, out: &mut String, line: u64) -> Result<(), AllocError>
        ensures { OnOk result (TextGrows out.old (svg_lines (plain_sheet self.now) line) out.new) }
    {
        self.push_svg_rows(alloc, out, line_after(line, 2))
    }

    /// A trace: its head, the line of its axis, and a line a span.
    fn push_svg_trace(&self, alloc: Global, out: &mut String, line: u64) -> Result<(), AllocError>
        ensures { OnOk result (TextGrows out.old (svg_trace (plain_sheet self.now) line) out.new) }
    {
        self.push_svg_head(alloc, out, line)?;
        self.push_svg_service(alloc, out, line)?;
        self.push_svg_axis(alloc, out, line)?;
        self.push_svg_lines(alloc, out, line)?;
        Ok(())
    }

    /// The line after a trace: it takes a head, an axis, its rows and what stands under them, and an empty one.
    fn line_after_trace(&self, line: u64) -> u64
        ensures { result ≡ line_after_trace (plain_sheet self.now) line }
    {
        line_after(self.line_after_rows(line_after(line, 2)), 1)
    }
}

/// The line after the last one.
fn last_line(spans: &[ShownSpan], traces: &[Trace]) -> u64
    requires { AllHaveSpans spans.now traces.now }
    ensures { result ≡ last_line spans.now 0 (map plain_trace traces.now) }
{
    let mut line = 0;
    let mut left = traces;
    while let Some((trace, rest)) = left.split_first() {
        line = Sheet::of(spans, trace, Layout::svg()).line_after_trace(line);
        left = rest;
    }
    line
}

/// The beginning of the file, so high.
#[tactic(auto, unfolding(crate::specs::SvgParts::style_text))]
fn push_begin(out: &mut String, height: u64) -> Result<(), AllocError>
    ensures { OnOk result (TextGrows out.old (svg_begin height) out.new) }
{
    push_root(out, height)?;
    out.push_str(STYLE)?;
    push_page(out, height)
}

/// Traces, one under the other.
fn push_svg_traces(
    alloc: Global,
    out: &mut String,
    spans: &[ShownSpan],
    traces: &[Trace],
) -> Result<(), AllocError>
    requires { AllHaveSpans spans.now traces.now }
    ensures { OnOk result (TextGrows out.old (svg_traces spans.now 0 (map plain_trace traces.now)) out.new) }
{
    let mut line = 0;
    let mut left = traces;
    while let Some((trace, rest)) = left.split_first() {
        let sheet = Sheet::of(spans, trace, Layout::svg());
        sheet.push_svg_trace(alloc, out, line)?;
        line = sheet.line_after_trace(line);
        left = rest;
    }
    Ok(())
}

impl Traces<'_> {
    /// The SVG file of the pictures of traces.
    pub fn to_svg(&self, alloc: Global) -> Result<Vec<u8>, AllocError>
        ensures { IfOk result (λ text. text.items ≡ svg_text (plain_traces self.now)) }
    {
        let mut text = String::new(alloc);
        push_begin(&mut text, down(last_line(self.spans, &self.traces), 10))?;
        push_svg_traces(alloc, &mut text, self.spans, &self.traces)?;
        text.push_str("</svg>\n")?;
        Ok(text.into_bytes())
    }
}
