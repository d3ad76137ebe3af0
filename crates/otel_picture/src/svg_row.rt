//! The lines of the SVG form, a span each: its name, its bar with marks for events, its numbers, and a title.

ghost use Rattle.std.specs.Prelude.{◌≡◌, ◌<◌, ◌+◌, ◌-◌, IfOk, OnOk, length, string_bytes};
ghost use Rattle.std.specs.List.{flat_map};
ghost use Rattle.opentelemetry.specs.PlainValues.{plain_status};
ghost use Rattle.opentelemetry.specs.Text.{TextGrows};
ghost use Rattle.otel_picture.specs.PlainSheets.{sheet_column};
ghost use Rattle.otel_picture.specs.Sheets.{plain_sheet};
ghost use Rattle.otel_picture.specs.SvgParts.{down, place_svg};
ghost use Rattle.otel_picture.specs.SvgTexts.{
  class_text,
  colour_of,
  event_svg,
  event_title,
  fault_text,
  level_text,
  link_title,
  note_of,
  sign_at,
  svg_bar,
  svg_name,
  svg_numbers,
  svg_numbers_text,
  svg_row,
  svg_rows,
  svg_shapes,
  svg_sign,
  title_of,
  whose_text,
};

use crate::bar::Bar;
use crate::details::link_of;
use crate::durations::push_duration;
use crate::families::begin_of;
use crate::row_text::{kind_text, label_of};
use crate::rows::Row;
use crate::sheet::{Sheet, is_error};
use crate::svg_parts::{down, push_label, push_mark, push_place, push_sign, push_title, push_when};
use crate::texts::{push_cut, push_shown};
use opentelemetry::trace::Status;
use otel_shown::{ShownEvent, ShownLink, ShownSpan};
use std::alloc::{AllocError, Global};
use std::fmt::Write;

/// The colour of a service, one of eight.
fn colour_of(service: &str) -> u64
    ensures { result ≡ colour_of service.now }
{
    let mut colour = 0;
    for byte in service.as_bytes() {
        colour = (colour + u64::from(*byte)) % 8;
    }
    colour
}

/// Appends the class of a bar.
#[tactic(auto, unfolding(crate::specs::SvgTexts::class_text))]
fn push_class(out: &mut String, span: &ShownSpan) -> Result<(), AllocError>
    ensures { OnOk result (TextGrows out.old (class_text span.now) out.new) }
{
    let colour = colour_of(span.resource.service());
    write!(out, "s{colour}")?;
    if is_error(&span.status) {
        return out.push_str(" error");
    }
    Ok(())
}

/// Appends what went wrong, as a line of a title.
fn push_fault(out: &mut String, status: &Status) -> Result<(), AllocError>
    ensures { OnOk result (TextGrows out.old (fault_text (plain_status status.now)) out.new) }
{
    match status {
        Status::Error { description } => {
            out.push_str("\n! ")?;
            out.push_str(description.as_str())
        }
        _ => Ok(()),
    }
}

/// Appends what went wrong, after the numbers.
fn push_note(out: &mut String, status: &Status) -> Result<(), AllocError>
    ensures { OnOk result (TextGrows out.old (note_of (plain_status status.now)) out.new) }
{
    match status {
        Status::Error { description } => {
            out.push_str(" ! ")?;
            push_shown(out, description.as_str())
        }
        _ => Ok(()),
    }
}

/// Whose span it is, and of what kind.
fn push_whose(out: &mut String, span: &ShownSpan) -> Result<(), AllocError>
    ensures { OnOk result (TextGrows out.old (whose_text span.now) out.new) }
{
    out.push_str(span.name.as_str())?;
    out.push_str(kind_text(span.kind))?;
    let service = span.resource.service();
    if service.is_empty() {
        return Ok(());
    }
    out.push_str("\n@")?;
    out.push_str(service)
}

/// Appends a link, as lines of a title.
fn push_link_title(alloc: Global, out: &mut String, link: &ShownLink) -> Result<(), AllocError>
    ensures { OnOk result (TextGrows out.old (link_title link.now) out.new) }
{
    let said = link_of(alloc, link)?;
    out.push_str("\n> ")?;
    out.push_str(said.as_str())?;
    out.push_str(link.attributes.as_str())
}

/// Appends links, as lines of a title.
fn push_link_titles(alloc: Global, out: &mut String, links: &[ShownLink]) -> Result<(), AllocError>
    ensures { OnOk result (TextGrows out.old (flat_map link_title links.now) out.new) }
{
    for link in links {
        push_link_title(alloc, out, link)?;
    }
    Ok(())
}

/// Appends the sign in front of the bar of a span that failed, at a place.
fn push_sign_at(out: &mut String, x: u64, y: u64, status: &Status) -> Result<(), AllocError>
    ensures { OnOk result (TextGrows out.old (sign_at x y (plain_status status.now)) out.new) }
{
    if is_error(status) {
        return push_sign(out, x, y);
    }
    Ok(())
}

/// The title of a bar.
fn title_of(alloc: Global, span: &ShownSpan) -> Result<String, AllocError>
    ensures { IfOk result (λ title. string_bytes title ≡ title_of span.now) }
{
    let mut title = String::new(alloc);
    push_whose(&mut title, span)?;
    push_when(&mut title, "start", span.start_time.0)?;
    push_when(&mut title, "end", span.end_time.0)?;
    push_fault(&mut title, &span.status)?;
    title.push_str(span.attributes.as_str())?;
    push_link_titles(alloc, &mut title, &span.links)?;
    Ok(title)
}

/// The level of a row that stands deeper than its name is moved in.
fn level_of(alloc: Global, level: usize) -> Result<String, AllocError>
    ensures { IfOk result (λ text. string_bytes text ≡ level_text level) }
{
    let mut text = String::new(alloc);
    if level > 10 {
        write!(text, "{level} ")?;
    }
    Ok(text)
}

/// Appends where a bar is, and how wide.
fn push_bar_place(out: &mut String, line: u64, bar: Bar) -> Result<(), AllocError>
    ensures { OnOk result (TextGrows out.old
        (place_svg (310 + bar.begin) (down line 4) (bar.end - bar.begin + 1)) out.new) }
{
    let width = u64::from(bar.end - bar.begin) + 1;
    push_place(out, 310 + u64::from(bar.begin), down(line, 4), width)
}

/// The title of an event.
fn event_title_of(alloc: Global, event: &ShownEvent) -> Result<String, AllocError>
    ensures { IfOk result (λ title. string_bytes title ≡ event_title event.now) }
{
    let mut title = String::from_str(alloc, event.name.as_str())?;
    push_when(&mut title, "at", event.timestamp.0)?;
    title.push_str(event.attributes.as_str())?;
    Ok(title)
}

impl Sheet<'_> {
    /// How far to the right a moment is, in units.
    fn svg_place(&self, moment: u64) -> u64
        ensures { result ≡ 310 + sheet_column (plain_sheet self.now) moment }
    {
        310 + u64::from(self.scale.column(moment))
    }

    /// A mark where an event happened, and its title.
    fn push_event(
        &self,
        alloc: Global,
        out: &mut String,
        line: u64,
        event: &ShownEvent,
    ) -> Result<(), AllocError>
        ensures { OnOk result (TextGrows out.old (event_svg (plain_sheet self.now) line event.now) out.new) }
    {
        let title = event_title_of(alloc, event)?;
        push_mark(out, self.svg_place(event.timestamp.0), down(line, 3))?;
        push_title(out, title.as_str())?;
        out.push_str("</path>")
    }

    /// The marks of a span's events.
    fn push_events(
        &self,
        alloc: Global,
        out: &mut String,
        line: u64,
        span: &ShownSpan,
    ) -> Result<(), AllocError>
        ensures { OnOk result (TextGrows out.old
            (flat_map (event_svg (plain_sheet self.now) line) span.now.events) out.new) }
    {
        for event in &span.events {
            self.push_event(alloc, out, line, event)?;
        }
        Ok(())
    }

    /// The name of a span, moved in by its level, after the level where that is more than it is moved in.
    fn push_svg_name(
        &self,
        alloc: Global,
        out: &mut String,
        line: u64,
        row: Row,
    ) -> Result<(), AllocError>
        requires { row.span < length self.now.trace.now.family.marks.items }
        ensures { OnOk result (TextGrows out.old (svg_name (plain_sheet self.now) line row) out.new) }
    {
        let indent = row.level.min(10);
        let label = label_of(alloc, self.span_of(row), self.is_orphan(row), self.is_mixed)?;
        let mut named = level_of(alloc, row.level)?;
        named.push_str(label.as_str())?;
        let mut cut = String::new(alloc);
        push_cut(&mut cut, named.as_str(), 40 - 2 * indent)?;
        push_label(out, 10 + 14 * indent as u64, down(line, 15), cut.as_str())
    }

    /// The sign in front of a bar, if the span failed.
    fn push_svg_sign(&self, out: &mut String, line: u64, span: &ShownSpan) -> Result<(), AllocError>
        ensures { OnOk result (TextGrows out.old (svg_sign (plain_sheet self.now) line span.now) out.new) }
    {
        let x = self.svg_place(begin_of(span)) - 12;
        push_sign_at(out, x, down(line, 15), &span.status)
    }

    /// The bar of a span, from the column of its start to that of its end.
    fn push_svg_bar(&self, out: &mut String, line: u64, span: &ShownSpan) -> Result<(), AllocError>
        ensures { OnOk result (TextGrows out.old (svg_bar (plain_sheet self.now) line span.now) out.new) }
    {
        let begin = begin_of(span);
        let bar = self.scale.bar(begin, span.end_time.0);
        out.push_str("<rect class=\"")?;
        push_class(out, span)?;
        push_bar_place(out, line, bar)?;
        Ok(())
    }

    /// Offset, length, and what went wrong.
    fn svg_numbers_of(&self, alloc: Global, row: Row) -> Result<String, AllocError>
        requires { row.span < length self.now.trace.now.family.marks.items }
        ensures { IfOk result (λ numbers. string_bytes numbers ≡ svg_numbers_text (plain_sheet self.now) row) }
    {
        let mark = self.trace.family.marks[row.span];
        let span = self.span_of(row);
        let mut numbers = String::from_str(alloc, "+")?;
        push_duration(&mut numbers, mark.start.saturating_sub(self.scale.first))?;
        numbers.push(' ')?;
        push_duration(&mut numbers, mark.end.saturating_sub(mark.start))?;
        push_note(&mut numbers, &span.status)?;
        Ok(numbers)
    }

    /// The same, cut to their room.
    fn push_svg_numbers(
        &self,
        alloc: Global,
        out: &mut String,
        line: u64,
        row: Row,
    ) -> Result<(), AllocError>
        requires { row.span < length self.now.trace.now.family.marks.items }
        ensures { OnOk result (TextGrows out.old (svg_numbers (plain_sheet self.now) line row) out.new) }
    {
        let numbers = self.svg_numbers_of(alloc, row)?;
        let mut cut = String::new(alloc);
        push_cut(&mut cut, numbers.as_str(), 24)?;
        push_label(out, 778, down(line, 15), cut.as_str())
    }

    /// What a line shows of a span, but its title.
    fn push_svg_shapes(
        &self,
        alloc: Global,
        out: &mut String,
        line: u64,
        row: Row,
    ) -> Result<(), AllocError>
        requires { row.span < length self.now.trace.now.family.marks.items }
        ensures { OnOk result (TextGrows out.old (svg_shapes (plain_sheet self.now) line row) out.new) }
    {
        let span = self.span_of(row);
        self.push_svg_name(alloc, out, line, row)?;
        self.push_svg_sign(out, line, span)?;
        self.push_svg_bar(out, line, span)?;
        self.push_events(alloc, out, line, span)?;
        self.push_svg_numbers(alloc, out, line, row)?;
        Ok(())
    }

    /// The line of a span, and those under it.
    fn push_svg_row(
        &self,
        alloc: Global,
        out: &mut String,
        line: u64,
        row: Row,
    ) -> Result<(), AllocError>
        requires { row.span < length self.now.trace.now.family.marks.items }
        ensures { OnOk result (TextGrows out.old (svg_row (plain_sheet self.now) line row) out.new) }
    {
        let title = title_of(alloc, self.span_of(row))?;
        out.push_str("<g>")?;
        push_title(out, title.as_str())?;
        self.push_svg_shapes(alloc, out, line, row)?;
        self.push_svg_notes(alloc, out, line, row)?;
        out.push_str("</g>\n")?;
        Ok(())
    }

    /// The lines of all spans, from this one on.
    pub(crate) fn push_svg_rows(
        &self,
        alloc: Global,
        out: &mut String,
        line: u64,
    ) -> Result<(), AllocError>
        ensures { OnOk result (TextGrows out.old
            (svg_rows (plain_sheet self.now) line self.now.trace.now.rows.items) out.new) }
    {
        let mut line = line;
        let mut left = self.trace.rows.as_slice();
        while let Some((row, rest)) = left.split_first() {
            self.push_svg_row(alloc, out, line, *row)?;
            left = rest;
            line = self.line_after_row(line, *row);
        }
        Ok(())
    }
}
