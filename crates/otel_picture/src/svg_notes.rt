//! The lines under the row of a span in the SVG form: what is odd, its exceptions and its links, in one text that goes on
//! downwards.

ghost use Rattle.std.specs.Prelude.{◌≡◌, ◌<◌, ◌≤◌, OnOk, length};
ghost use Rattle.std.specs.List.{flat_map};
ghost use Rattle.opentelemetry.specs.Text.{TextGrows};
ghost use Rattle.otel_picture.specs.Sheets.{plain_sheet};
ghost use Rattle.otel_picture.specs.SvgNotes.{
  event_note,
  exceptions_in,
  level_indent,
  line_after_row,
  line_after_rows,
  link_note,
  note_svg,
  notes_head,
  notes_svg,
  notes_text,
  odd_note,
  odd_notes,
  svg_notes,
};

use crate::details::{exception_of, is_exception, link_of};
use crate::odd::Odd;
use crate::rows::Row;
use crate::sheet::Sheet;
use crate::svg_parts::{down, line_after};
use crate::texts::{push_cut, push_escaped};
use otel_shown::{ShownEvent, ShownLink, ShownSpan};
use std::alloc::{AllocError, Global};
use std::fmt::Write;

/// Appends a line a row further down, after a sign, cut to its room.
#[tactic(auto, unfolding(crate::specs::SvgNotes::note_svg))]
fn push_note(
    alloc: Global,
    out: &mut String,
    indent: usize,
    sign: &str,
    said: &str,
) -> Result<(), AllocError>
    requires { indent ≤ 10 }
    ensures { OnOk result (TextGrows out.old (note_svg indent sign.now said.now) out.new) }
{
    let mut cut = String::new(alloc);
    push_cut(&mut cut, said, 128 - 2 * indent)?;
    let x = 10 + 14 * indent;
    write!(out, "<tspan x=\"{x}\" dy=\"20\">")?;
    out.push_str(sign)?;
    push_escaped(out, cut.as_str())?;
    out.push_str("</tspan>")
}

/// Appends the line of an event that is an exception.
fn push_event_note(
    alloc: Global,
    out: &mut String,
    indent: usize,
    event: &ShownEvent,
) -> Result<(), AllocError>
    requires { indent ≤ 10 }
    ensures { OnOk result (TextGrows out.old (event_note indent event.now) out.new) }
{
    if is_exception(event) {
        let said = exception_of(alloc, event.attributes.as_str())?;
        return push_note(alloc, out, indent, "* ", said.as_str());
    }
    Ok(())
}

/// Appends the lines of exceptions among events.
fn push_event_notes(
    alloc: Global,
    out: &mut String,
    indent: usize,
    events: &[ShownEvent],
) -> Result<(), AllocError>
    requires { indent ≤ 10 }
    ensures { OnOk result (TextGrows out.old (flat_map (event_note indent) events.now) out.new) }
{
    for event in events {
        push_event_note(alloc, out, indent, event)?;
    }
    Ok(())
}

/// Appends the line of a link.
fn push_link_note(
    alloc: Global,
    out: &mut String,
    indent: usize,
    link: &ShownLink,
) -> Result<(), AllocError>
    requires { indent ≤ 10 }
    ensures { OnOk result (TextGrows out.old (link_note indent link.now) out.new) }
{
    let said = link_of(alloc, link)?;
    push_note(alloc, out, indent, "&gt; ", said.as_str())
}

/// Appends the lines of links.
fn push_link_notes(
    alloc: Global,
    out: &mut String,
    indent: usize,
    links: &[ShownLink],
) -> Result<(), AllocError>
    requires { indent ≤ 10 }
    ensures { OnOk result (TextGrows out.old (flat_map (link_note indent) links.now) out.new) }
{
    for link in links {
        push_link_note(alloc, out, indent, link)?;
    }
    Ok(())
}

/// Appends a line that says what is odd, where it is so.
fn push_odd_note(
    alloc: Global,
    out: &mut String,
    indent: usize,
    is_so: bool,
    said: &str,
) -> Result<(), AllocError>
    requires { indent ≤ 10 }
    ensures { OnOk result (TextGrows out.old (odd_note indent is_so said.now) out.new) }
{
    if is_so {
        return push_note(alloc, out, indent, "? ", said);
    }
    Ok(())
}

/// Appends what is odd, a line each.
#[tactic(auto, unfolding(crate::specs::SvgNotes::odd_notes))]
fn push_odd_notes(
    alloc: Global,
    out: &mut String,
    indent: usize,
    odd: Odd,
) -> Result<(), AllocError>
    requires { indent ≤ 10 }
    ensures { OnOk result (TextGrows out.old (odd_notes indent odd) out.new) }
{
    push_odd_note(alloc, out, indent, odd.no_start, "no start")?;
    push_odd_note(alloc, out, indent, odd.no_end, "no end")?;
    push_odd_note(alloc, out, indent, odd.is_backward, "ends before it starts")?;
    push_odd_note(alloc, out, indent, odd.in_circle, "in a circle of parents")?;
    push_odd_note(
        alloc,
        out,
        indent,
        odd.comes_again,
        "has the id of a span before it",
    )
}

/// Appends the lines under the row of a span.
#[tactic(auto, unfolding(crate::specs::SvgNotes::notes_text))]
fn push_notes(
    alloc: Global,
    out: &mut String,
    indent: usize,
    odd: Odd,
    span: &ShownSpan,
) -> Result<(), AllocError>
    requires { indent ≤ 10 }
    ensures { OnOk result (TextGrows out.old (notes_text indent odd span.now) out.new) }
{
    push_odd_notes(alloc, out, indent, odd)?;
    push_event_notes(alloc, out, indent, &span.events)?;
    push_link_notes(alloc, out, indent, &span.links)
}

/// Appends the beginning of a text that goes on under its line.
#[tactic(auto, unfolding(crate::specs::SvgNotes::notes_head))]
fn push_notes_head(out: &mut String, y: u64) -> Result<(), AllocError>
    ensures { OnOk result (TextGrows out.old (notes_head y) out.new) }
{
    write!(out, "<text x=\"10\" y=\"{y}\" xml:space=\"preserve\">")
}

/// Appends that text.
fn push_notes_text(
    alloc: Global,
    out: &mut String,
    indent: usize,
    y: u64,
    odd: Odd,
    span: &ShownSpan,
) -> Result<(), AllocError>
    requires { indent ≤ 10 }
    ensures { OnOk result (TextGrows out.old (notes_svg indent y odd span.now) out.new) }
{
    push_notes_head(out, y)?;
    push_notes(alloc, out, indent, odd, span)?;
    out.push_str("</text>")?;
    Ok(())
}

/// How many exceptions are among events.
fn exceptions_in(events: &[ShownEvent]) -> usize
    ensures { result ≡ exceptions_in events.now }
{
    let mut exceptions = 0;
    for event in events {
        if is_exception(event) {
            exceptions += 1;
        }
    }
    exceptions
}

impl Sheet<'_> {
    /// The lines under a row, if there are any.
    pub(crate) fn push_svg_notes(
        &self,
        alloc: Global,
        out: &mut String,
        line: u64,
        row: Row,
    ) -> Result<(), AllocError>
        requires { row.span < length self.now.trace.now.family.marks.items }
        ensures { OnOk result (TextGrows out.old (svg_notes (plain_sheet self.now) line row) out.new) }
    {
        let span = self.span_of(row);
        let odd = self.odd_of(row);
        if odd.lines() == 0 && exceptions_in(&span.events) == 0 && span.links.len() == 0 {
            return Ok(());
        }
        push_notes_text(alloc, out, row.level.min(10), down(line, 15), odd, span)
    }

    /// The line after a row.
    pub(crate) fn line_after_row(&self, line: u64, row: Row) -> u64
        requires { row.span < length self.now.trace.now.family.marks.items }
        ensures { result ≡ line_after_row (plain_sheet self.now) line row }
    {
        let span = self.span_of(row);
        let odd = line_after(line_after(line, 1), self.odd_of(row).lines());
        let exceptions = exceptions_in(&span.events) as u64;
        line_after(line_after(odd, exceptions), span.links.len() as u64)
    }

    /// The line after all rows, of which the first is this one.
    pub(crate) fn line_after_rows(&self, line: u64) -> u64
        ensures { result ≡ line_after_rows (plain_sheet self.now) line self.now.trace.now.rows.items }
    {
        let mut line = line;
        let mut left = self.trace.rows.as_slice();
        while let Some((row, rest)) = left.split_first() {
            line = self.line_after_row(line, *row);
            left = rest;
        }
        line
    }
}
