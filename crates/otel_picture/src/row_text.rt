//! The rows of the text form, a span each: name, bar, numbers, what went wrong on a line of its own, and lines under it.

ghost use Rattle.std.specs.Prelude.{◌≡◌, ◌<◌, ◌==◌, IfOk, OnOk, encode_utf8, length, max, string_bytes};
ghost use Rattle.std.specs.List.{list_any};
ghost use Rattle.opentelemetry.specs.PlainValues.{plain_status};
ghost use Rattle.opentelemetry.specs.Text.{TextGrows};
ghost use Rattle.otel_picture.specs.RowTexts.{
  AreEventColumns,
  bar_text,
  cell_text,
  cells_text,
  happens_in,
  indent_of,
  kind_text,
  label_text,
  name_text,
  note_text,
  number_text,
  numbers_text,
  row_text,
  rows_text,
  self_text,
  sign_text,
  signs_text,
  under_of,
  under_text,
};
ghost use Rattle.otel_picture.specs.Families.{begin_of};
ghost use Rattle.otel_picture.specs.PlainSheets.{row_span, sheet_column};
ghost use Rattle.otel_picture.specs.Sheets.{plain_sheet};

use crate::bar::{Bar, self_times};
use crate::details::Under;
use crate::durations::push_duration;
use crate::families::begin_of;
use crate::odd::push_odd;
use crate::rows::Row;
use crate::sheet::{Sheet, is_error};
use crate::texts::{push_at_right, push_cut, push_in_room, push_shown, push_times};
use opentelemetry::trace::{SpanKind, Status};
use otel_shown::{ShownEvent, ShownSpan};
use std::alloc::{AllocError, Global};

/// The word of a kind, after a blank; none of the kind that most spans have.
pub(crate) fn kind_text(kind: SpanKind) -> &'static str
    ensures { result.now ≡ kind_text kind }
{
    match kind {
        SpanKind::Client => " client",
        SpanKind::Server => " server",
        SpanKind::Producer => " producer",
        SpanKind::Consumer => " consumer",
        SpanKind::Internal => "",
    }
}

/// Appends the signs in front of a name: its parent is not in the picture, it has links.
fn push_signs(out: &mut String, span: &ShownSpan, is_orphan: bool) -> Result<(), AllocError>
    ensures { OnOk result (TextGrows out.old (signs_text is_orphan span.now) out.new) }
{
    if is_orphan {
        out.push('~')?;
    }
    if span.links.is_empty() {
        return Ok(());
    }
    out.push('>')
}

/// A span's name, with its service where those differ, and its kind.
pub(crate) fn label_of(
    alloc: Global,
    span: &ShownSpan,
    is_orphan: bool,
    is_mixed: bool,
) -> Result<String, AllocError>
    ensures { IfOk result (λ label. string_bytes label ≡ label_text is_orphan is_mixed span.now) }
{
    let mut label = String::new(alloc);
    push_signs(&mut label, span, is_orphan)?;
    push_shown(&mut label, span.name.as_str())?;
    if is_mixed {
        label.push_str(" @")?;
        push_shown(&mut label, span.resource.service())?;
    }
    label.push_str(kind_text(span.kind))?;
    Ok(label)
}

/// Appends a duration after a sign, at the right of its room.
fn push_number(
    alloc: Global,
    text: &mut String,
    sign: &str,
    nanoseconds: u64,
) -> Result<(), AllocError>
    ensures { OnOk result (TextGrows text.old (number_text sign.now nanoseconds) text.new) }
{
    let mut number = String::from_str(alloc, sign)?;
    push_duration(&mut number, nanoseconds)?;
    text.push(' ')?;
    push_at_right(text, number.as_str(), 8)
}

/// The sign in front of the bar of a span that failed.
fn sign_of(status: &Status) -> &'static str
    ensures { result.now ≡ sign_text (plain_status status.now) }
{
    if is_error(status) { "!" } else { " " }
}

impl Sheet<'_> {
    /// In which columns of a bar events happened.
    fn event_columns(&self, alloc: Global, events: &[ShownEvent]) -> Result<Vec<bool>, AllocError>
        ensures { IfOk result (λ happened. AreEventColumns (plain_sheet self.now) events.now happened.items) }
    {
        let mut happened = vec![in alloc; false; self.layout.bar as usize]?;
        for event in events {
            let column = self.scale.column(event.timestamp.0);
            happened[column as usize] = true;
        }
        Ok(happened)
    }

    /// A column of the bar of a span: a mark where an event happened.
    fn cell_of(&self, span: &ShownSpan, happens: bool, bar: Bar, column: u32) -> char
        requires happens { happens ≡ happens_in (plain_sheet self.now) span.now.events column }
        requires begin { bar.begin ≡ sheet_column (plain_sheet self.now) (begin_of span.now) }
        requires end { bar.end ≡ sheet_column (plain_sheet self.now) (max (begin_of span.now) span.now.end_time) }
        ensures { encode_utf8 result ≡ cell_text (plain_sheet self.now) span.now column }
    {
        if happens {
            '·'
        } else if bar.begin <= column && column <= bar.end {
            '='
        } else {
            ' '
        }
    }

    /// The bar of a span, with marks where events happened.
    fn push_cells(
        &self,
        alloc: Global,
        text: &mut String,
        span: &ShownSpan,
    ) -> Result<(), AllocError>
        ensures { OnOk result (TextGrows text.old
            (cells_text (plain_sheet self.now) span.now self.now.layout.bar) text.new) }
    {
        let happened = self.event_columns(alloc, &span.events)?;
        let begin = begin_of(span);
        let bar = self.scale.bar(begin, span.end_time.0);
        for column in 0..self.layout.bar {
            let happens = happened[column as usize];
            text.push(self.cell_of(span, happens, bar, column))?;
        }
        Ok(())
    }

    /// The span of a row.
    pub(crate) fn span_of(&self, row: Row) -> &ShownSpan
        requires { row.span < length self.now.trace.now.family.marks.items }
        ensures { result.now ≡ row_span (plain_sheet self.now) row }
    {
        let mark = self.trace.family.marks[row.span];
        &self.spans[mark.place]
    }

    /// The blanks in front of a name: two a level, as far as that leaves it room.
    fn indent_of(&self, row: Row) -> usize
        ensures { result ≡ indent_of (plain_sheet self.now) row }
    {
        let most = self.layout.name.saturating_sub(4);
        row.level.saturating_mul(2).min(most)
    }

    /// The name of a span in its room.
    fn push_name(&self, alloc: Global, text: &mut String, row: Row) -> Result<(), AllocError>
        requires { row.span < length self.now.trace.now.family.marks.items }
        ensures { OnOk result (TextGrows text.old (name_text (plain_sheet self.now) row) text.new) }
    {
        let label = label_of(alloc, self.span_of(row), self.is_orphan(row), self.is_mixed)?;
        let indent = self.indent_of(row);
        push_times(text, ' ', indent)?;
        push_in_room(
            text,
            label.as_str(),
            self.layout.name.saturating_sub(indent),
        )
    }

    /// Its bar, after the sign of one that failed.
    fn push_bar(&self, alloc: Global, text: &mut String, row: Row) -> Result<(), AllocError>
        requires { row.span < length self.now.trace.now.family.marks.items }
        ensures { OnOk result (TextGrows text.old (bar_text (plain_sheet self.now) row) text.new) }
    {
        let span = self.span_of(row);
        text.push_str(sign_of(&span.status))?;
        self.push_cells(alloc, text, span)
    }

    /// Offset and length, where there is room.
    fn push_numbers(&self, alloc: Global, text: &mut String, row: Row) -> Result<(), AllocError>
        requires { row.span < length self.now.trace.now.family.marks.items }
        ensures { OnOk result (TextGrows text.old (numbers_text (plain_sheet self.now) row) text.new) }
    {
        if !self.layout.has_numbers {
            return Ok(());
        }
        let mark = self.trace.family.marks[row.span];
        push_number(
            alloc,
            text,
            "+",
            mark.start.saturating_sub(self.scale.first),
        )?;
        push_number(alloc, text, "", mark.end.saturating_sub(mark.start))
    }

    /// The time without the children, where there is room.
    fn push_self_time(&self, alloc: Global, text: &mut String, own: u64) -> Result<(), AllocError>
        ensures { OnOk result (TextGrows text.old (self_text (plain_sheet self.now) own) text.new) }
    {
        if !self.layout.has_self_time {
            return Ok(());
        }
        push_number(alloc, text, "", own)
    }

    /// The end of a row, and a line of its own for what went wrong.
    fn push_note(
        &self,
        alloc: Global,
        text: &mut String,
        indent: usize,
        status: &Status,
    ) -> Result<(), AllocError>
        ensures { OnOk result (TextGrows text.old
            (note_text (plain_sheet self.now) indent (plain_status status.now)) text.new) }
    {
        text.push('\n')?;
        let Status::Error { description } = status else {
            return Ok(());
        };
        let mut shown = String::new(alloc);
        push_shown(&mut shown, description.as_str())?;
        push_times(text, ' ', indent)?;
        text.push_str("! ")?;
        let columns = self.layout.columns.saturating_sub(indent).saturating_sub(2);
        push_cut(text, shown.as_str(), columns)?;
        text.push('\n')
    }

    /// Where the lines under a row stand.
    fn under_of(&self, row: Row) -> Under
        ensures { result ≡ under_of (plain_sheet self.now) row }
    {
        Under {
            columns: self.layout.columns,
            indent: self.indent_of(row),
            has_attributes: self.layout.has_attributes,
        }
    }

    /// Those lines.
    fn push_under(&self, alloc: Global, text: &mut String, row: Row) -> Result<(), AllocError>
        requires { row.span < length self.now.trace.now.family.marks.items }
        ensures { OnOk result (TextGrows text.old (under_text (plain_sheet self.now) row) text.new) }
    {
        let under = self.under_of(row);
        push_odd(text, under, self.odd_of(row))?;
        under.push_details(alloc, text, self.span_of(row))
    }

    /// The row of a span, by the time without the children, and the lines under it.
    fn push_row(
        &self,
        alloc: Global,
        text: &mut String,
        row: Row,
        own: u64,
    ) -> Result<(), AllocError>
        requires { row.span < length self.now.trace.now.family.marks.items }
        ensures { OnOk result (TextGrows text.old (row_text (plain_sheet self.now) row own) text.new) }
    {
        self.push_name(alloc, text, row)?;
        self.push_bar(alloc, text, row)?;
        self.push_numbers(alloc, text, row)?;
        self.push_self_time(alloc, text, own)?;
        let span = self.span_of(row);
        self.push_note(alloc, text, self.indent_of(row), &span.status)?;
        self.push_under(alloc, text, row)?;
        Ok(())
    }

    /// The rows of all spans.
    pub(crate) fn push_rows(&self, alloc: Global, text: &mut String) -> Result<(), AllocError>
        ensures { OnOk result (TextGrows text.old
            (rows_text (plain_sheet self.now) self.now.trace.now.rows.items) text.new) }
    {
        let rows = self.trace.rows.as_slice();
        let own = self_times(alloc, &self.trace.family.marks, rows)?;
        for at in 0..rows.len() {
            self.push_row(alloc, text, rows[at], own[at])?;
        }
        Ok(())
    }
}
