//! The data of the HTML form: a JSON object a trace, which is its summary and its rows.

ghost use Rattle.std.specs.Prelude.{◌≡◌, ◌<◌, ◌++◌, ◌∷◌, [], All, IfOk, OnOk, codes, flat_map, length, map};
ghost use Rattle.json.specs.Token as token;
ghost use Rattle.opentelemetry.specs.Hex.{hex_text};
ghost use Rattle.opentelemetry.specs.PlainValues.{plain_status};
ghost use Rattle.otel_picture.specs.HtmlRows.{
  description_of,
  event_tokens,
  kind_word,
  link_tokens,
  list_member,
  name_members,
  parent_text,
  place_members,
  recorded_members,
  resource_members,
  row_members,
  row_tokens,
  rows_member,
  rows_tokens,
  span_time_members,
  status_members,
  status_word,
  trace_tokens,
  traces_tokens,
};
ghost use Rattle.otel_picture.specs.PlainSheets.{row_span};
ghost use Rattle.otel_picture.specs.Sheets.{plain_sheet};
ghost use Rattle.otel_picture.specs.Summaries.{text_member};
ghost use Rattle.otel_picture.specs.Traces.{AllHaveSpans, plain_trace};

use crate::layout::Layout;
use crate::rows::Row;
use crate::sheet::Sheet;
use crate::summary::{push_moment, push_number, push_text};
use crate::trace::Trace;
use json::Writer;
use opentelemetry::trace::{SpanKind, Status};
use opentelemetry::{SpanId, TraceId};
use otel_shown::{ShownEvent, ShownLink, ShownSpan};
use std::alloc::{AllocError, Global};

fn kind_word(kind: SpanKind) -> &'static str
    ensures { result.now ≡ kind_word kind }
{
    match kind {
        SpanKind::Client => "client",
        SpanKind::Server => "server",
        SpanKind::Producer => "producer",
        SpanKind::Consumer => "consumer",
        SpanKind::Internal => "internal",
    }
}

fn status_word(status: &Status) -> &'static str
    ensures { result.now ≡ status_word (plain_status status.now) }
{
    match status {
        Status::Unset => "unset",
        Status::Ok => "ok",
        Status::Error { .. } => "error",
    }
}

/// What went wrong; nothing where it is no error.
fn description_of(status: &Status) -> &str
    ensures { result.now ≡ description_of (plain_status status.now) }
{
    match status {
        Status::Unset | Status::Ok => "",
        Status::Error { description } => description.as_str(),
    }
}

/// A member whose value is the id of a trace.
fn push_trace_id(alloc: Global, out: &mut Writer, id: TraceId) -> Result<(), AllocError>
    ensures before { out.new.before ≡ out.old.before }
    ensures written { OnOk result (out.new.tokens ≡ out.old.tokens ++ text_member (codes "traceId") (hex_text 32 id)) }
{
    let text = format!(in alloc; "{id}")?;
    push_text(out, "traceId", text.as_str())
}

/// A member whose value is the id of a span.
fn push_span_id(alloc: Global, out: &mut Writer, key: &str, id: SpanId) -> Result<(), AllocError>
    ensures before { out.new.before ≡ out.old.before }
    ensures written { OnOk result (out.new.tokens ≡ out.old.tokens ++ text_member key.now (hex_text 16 id)) }
{
    let text = format!(in alloc; "{id}")?;
    push_text(out, key, text.as_str())
}

/// A member whose value is the id of a parent, empty where there is none.
fn push_parent(alloc: Global, out: &mut Writer, id: SpanId) -> Result<(), AllocError>
    ensures before { out.new.before ≡ out.old.before }
    ensures written { OnOk result
        (out.new.tokens ≡ out.old.tokens ++ text_member (codes "parentSpanId") (parent_text id)) }
{
    if id == SpanId::INVALID {
        push_text(out, "parentSpanId", "")
    } else {
        push_span_id(alloc, out, "parentSpanId", id)
    }
}

/// Which span it is, and how many levels its row stands under a root.
fn push_place(
    alloc: Global,
    out: &mut Writer,
    level: usize,
    span: &ShownSpan,
) -> Result<(), AllocError>
    ensures before { out.new.before ≡ out.old.before }
    ensures written { OnOk result (out.new.tokens ≡ out.old.tokens ++ place_members level span.now) }
{
    push_number(out, "level", level as u64)?;
    push_span_id(alloc, out, "spanId", span.span_id)?;
    push_parent(alloc, out, span.parent_span_id)
}

fn push_name(out: &mut Writer, span: &ShownSpan) -> Result<(), AllocError>
    ensures before { out.new.before ≡ out.old.before }
    ensures written { OnOk result (out.new.tokens ≡ out.old.tokens ++ name_members span.now) }
{
    push_text(out, "name", span.name.as_str())?;
    push_text(out, "service", span.resource.service())?;
    push_text(out, "kind", kind_word(span.kind))
}

fn push_span_time(out: &mut Writer, span: &ShownSpan) -> Result<(), AllocError>
    ensures before { out.new.before ≡ out.old.before }
    ensures written { OnOk result (out.new.tokens ≡ out.old.tokens ++ span_time_members span.now) }
{
    push_moment(out, "startTimeUnixNano", span.start_time.0)?;
    push_moment(out, "endTimeUnixNano", span.end_time.0)
}

fn push_status(out: &mut Writer, status: &Status) -> Result<(), AllocError>
    ensures before { out.new.before ≡ out.old.before }
    ensures written { OnOk result (out.new.tokens ≡ out.old.tokens ++ status_members (plain_status status.now)) }
{
    push_text(out, "status", status_word(status))?;
    push_text(out, "description", description_of(status))
}

fn push_event(out: &mut Writer, event: &ShownEvent) -> Result<(), AllocError>
    ensures before { out.new.before ≡ out.old.before }
    ensures written { OnOk result (out.new.tokens ≡ out.old.tokens ++ event_tokens event.now) }
{
    out.begin_object()?;
    push_moment(out, "timeUnixNano", event.timestamp.0)?;
    push_text(out, "name", event.name.as_str())?;
    push_text(out, "attributes", event.attributes.as_str())?;
    out.end_object()
}

fn push_event_items(out: &mut Writer, events: &[ShownEvent]) -> Result<(), AllocError>
    ensures before { out.new.before ≡ out.old.before }
    ensures written { OnOk result (out.new.tokens ≡ out.old.tokens ++ flat_map event_tokens events.now) }
{
    for event in events {
        push_event(out, event)?;
    }
    Ok(())
}

fn push_events(out: &mut Writer, events: &[ShownEvent]) -> Result<(), AllocError>
    ensures before { out.new.before ≡ out.old.before }
    ensures written { OnOk result
        (out.new.tokens ≡ out.old.tokens ++ list_member (codes "events") event_tokens events.now) }
{
    out.key("events")?;
    out.begin_array()?;
    push_event_items(out, events)?;
    out.end_array()
}

fn push_link(alloc: Global, out: &mut Writer, link: &ShownLink) -> Result<(), AllocError>
    ensures before { out.new.before ≡ out.old.before }
    ensures written { OnOk result (out.new.tokens ≡ out.old.tokens ++ link_tokens link.now) }
{
    out.begin_object()?;
    push_trace_id(alloc, out, link.trace_id)?;
    push_span_id(alloc, out, "spanId", link.span_id)?;
    push_text(out, "attributes", link.attributes.as_str())?;
    out.end_object()
}

fn push_link_items(alloc: Global, out: &mut Writer, links: &[ShownLink]) -> Result<(), AllocError>
    ensures before { out.new.before ≡ out.old.before }
    ensures written { OnOk result (out.new.tokens ≡ out.old.tokens ++ flat_map link_tokens links.now) }
{
    for link in links {
        push_link(alloc, out, link)?;
    }
    Ok(())
}

fn push_links(alloc: Global, out: &mut Writer, links: &[ShownLink]) -> Result<(), AllocError>
    ensures before { out.new.before ≡ out.old.before }
    ensures written { OnOk result
        (out.new.tokens ≡ out.old.tokens ++ list_member (codes "links") link_tokens links.now) }
{
    out.key("links")?;
    out.begin_array()?;
    push_link_items(alloc, out, links)?;
    out.end_array()
}

/// Its attributes, its events and its links.
fn push_recorded(alloc: Global, out: &mut Writer, span: &ShownSpan) -> Result<(), AllocError>
    ensures before { out.new.before ≡ out.old.before }
    ensures written { OnOk result (out.new.tokens ≡ out.old.tokens ++ recorded_members span.now) }
{
    push_text(out, "attributes", span.attributes.as_str())?;
    push_events(out, &span.events)?;
    push_links(alloc, out, &span.links)
}

/// The attributes of its resource, where they are not those before it.
fn push_resource(out: &mut Writer, before: &str, span: &ShownSpan) -> Result<(), AllocError>
    ensures before { out.new.before ≡ out.old.before }
    ensures written { OnOk result
        (out.new.tokens ≡ out.old.tokens ++ resource_members before.now span.now) }
{
    let attributes = span.resource.attributes();
    if attributes == before {
        return Ok(());
    }
    push_text(out, "resource", attributes)
}

/// The members of the object of a row.
fn push_row_members(
    alloc: Global,
    out: &mut Writer,
    before: &str,
    level: usize,
    span: &ShownSpan,
) -> Result<(), AllocError>
    ensures before { out.new.before ≡ out.old.before }
    ensures written { OnOk result (out.new.tokens ≡ out.old.tokens ++ row_members before.now level span.now) }
{
    push_place(alloc, out, level, span)?;
    push_name(out, span)?;
    push_span_time(out, span)?;
    push_status(out, &span.status)?;
    push_recorded(alloc, out, span)?;
    push_resource(out, before, span)
}

impl Sheet<'_> {
    /// The object of a row, and the attributes of its span's resource, by those of the row before it.
    fn push_json_row(
        &self,
        alloc: Global,
        out: &mut Writer,
        before: &str,
        row: Row,
    ) -> Result<&str, AllocError>
        requires { row.span < length self.now.trace.now.family.marks.items }
        ensures before { out.new.before ≡ out.old.before }
        ensures written { OnOk result (out.new.tokens
            ≡ out.old.tokens ++ row_tokens (plain_sheet self.now) before.now row) }
        ensures attributes { IfOk result (λ here. here.now ≡ (row_span (plain_sheet self.now) row).resource) }
    {
        let span = self.span_of(row);
        out.begin_object()?;
        push_row_members(alloc, out, before, row.level, span)?;
        out.end_object()?;
        Ok(span.resource.attributes())
    }

    /// The objects of the rows. A row has the attributes of its resource where they are not those of the row before it.
    fn push_json_row_items(&self, alloc: Global, out: &mut Writer) -> Result<(), AllocError>
        ensures before { out.new.before ≡ out.old.before }
        ensures written { OnOk result (out.new.tokens
            ≡ out.old.tokens ++ rows_tokens (plain_sheet self.now) [] self.now.trace.now.rows.items) }
    {
        let mut before = "";
        for row in &self.trace.rows {
            let own = self.push_json_row(alloc, out, before, *row)?;
            before = own;
        }
        Ok(())
    }

    fn push_json_rows(&self, alloc: Global, out: &mut Writer) -> Result<(), AllocError>
        ensures before { out.new.before ≡ out.old.before }
        ensures written { OnOk result (out.new.tokens
            ≡ out.old.tokens ++ rows_member (plain_sheet self.now) self.now.trace.now.rows.items) }
    {
        out.key("rows")?;
        out.begin_array()?;
        self.push_json_row_items(alloc, out)?;
        out.end_array()
    }

    fn push_json_trace(&self, alloc: Global, out: &mut Writer) -> Result<(), AllocError>
        ensures before { out.new.before ≡ out.old.before }
        ensures written { OnOk result (out.new.tokens ≡ out.old.tokens ++ trace_tokens (plain_sheet self.now)) }
    {
        out.begin_object()?;
        self.push_members(alloc, out)?;
        self.push_json_rows(alloc, out)?;
        out.end_object()
    }
}

/// An object a trace.
pub(crate) fn push_json_traces(
    alloc: Global,
    out: &mut Writer,
    spans: &[ShownSpan],
    traces: &[Trace],
) -> Result<(), AllocError>
    requires { AllHaveSpans spans.now traces.now }
    ensures before { out.new.before ≡ out.old.before }
    ensures written { OnOk result
        (out.new.tokens ≡ out.old.tokens ++ traces_tokens spans.now (map plain_trace traces.now)) }
{
    let mut left = traces;
    while let Some((trace, rest)) = left.split_first() {
        Sheet::of(spans, trace, Layout::svg()).push_json_trace(alloc, out)?;
        left = rest;
    }
    Ok(())
}
