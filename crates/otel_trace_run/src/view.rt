//! The mode `view`: the traces of an input of OTLP JSON, of any producer, are drawn. The input is read to its end, and then
//! its picture is written; what does not read is named after that, and requests without spans are counted.

ghost use Rattle.std.specs.Prelude.{◌≡◌, ◌≢◌, ◌⊎◌, [], IfOk, IfSome, MatchOption, OnOk, map, string_bytes};
ghost use Rattle.std.specs.Io.KnownBytes.{Appends};
ghost use Rattle.opentelemetry.specs.Text.{TextGrows};
ghost use Rattle.otel_picture.specs.Drawn.{plain_traces};
ghost use Rattle.otel_trace_run.specs.Streams.{streams_of};
ghost use Rattle.otel_trace_run.specs.Views.{BeginsView, DrawsView, IsViewOf, ReadsView, StatusOf, Tells, Views};
ghost use Rattle.otel_trace_run.specs.Views.{fault_line, fault_lines, found_in, found_line, item_text, notes_text};
ghost use Rattle.otel_trace_run.specs.Views.{place_text, spanless_line};

use crate::asked_view::{View, ViewForm};
use crate::program::{DONE, FAILED, NO_SPANS, REFUSED};
use otel_export::stream::write_whole;
use otel_otlp_read::{ItemList, ItemPlace, LineFault, read_text};
use otel_picture::traces::Traces;
use otel_shown::ShownSpan;
use std::alloc::{AllocError, Global};
use std::fmt::Write as _;
use std::io::{Read, Write};
use std::marker::Model;

/// Whether anything is drawn.
#[derive(Clone, Copy, Debug, PartialEq, Eq)]
pub enum Found {
    Traces,
    /// The words choose none of the traces.
    NoTrace,
    /// The input has no spans that read.
    NoSpan,
}

/// What is said of an input beside its view: what does not read, how many requests have no spans, and whether anything
/// is drawn.
#[derive(Drop)]
struct Notes {
    faults: Vec<LineFault>,
    spanless: u64,
    found: Found,
}

impl Model for Notes {
    ghost use Rattle.otel_trace_run.specs.Views.{PlainNotes};

    ghost Value = { PlainNotes };

    ghost view = { λ notes. record {
      faults = notes.faults.items;
      spanless = notes.spanless;
      found = notes.found;
    } };
}

/// Draws an input, says what of it does not read, and answers the status for that.
pub(crate) fn view_input<R: Read, W: Write, F: Write>(
    alloc: Global,
    view: View,
    input: &mut R,
    output: &mut W,
    faults: &mut F,
) -> u8
    ensures { Views view (streams_of R.remaining input.old input.new W.contents output.old output.new)
        (faults.new ≡ faults.old) (Appends (F.contents faults.old) (F.contents faults.new)) result }
{
    match draw_view(alloc, view, input, output) {
        Some(notes) => tell(alloc, &notes, faults),
        None => FAILED,
    }
}

/// Draws an input, and gives what is said of it. None where reading, memory or writing failed.
fn draw_view<R: Read, W: Write>(
    alloc: Global,
    view: View,
    input: &mut R,
    output: &mut W,
) -> Option<Notes>
    ensures { MatchOption result
        (BeginsView view (streams_of R.remaining input.old input.new W.contents output.old output.new))
        (DrawsView view (streams_of R.remaining input.old input.new W.contents output.old output.new)) }
{
    let (written, notes) = read_view(alloc, view, input)?;
    let Ok(()) = write_whole(output, &written) else {
        return None;
    };
    Some(notes)
}

/// Reads an input to its end, and gives what is written of its spans and what is said of it. The bytes of the
/// input are given back before its spans are drawn. None where reading or memory failed.
fn read_view<R: Read>(alloc: Global, view: View, input: &mut R) -> Option<(Vec<u8>, Notes)>
    ensures { IfSome result (λ read.
        ReadsView view (R.remaining input.old) (R.remaining input.new) read.0.items read.1) }
{
    let mut text = Vec::new(alloc);
    let Ok(_) = input.read_to_end(&mut text) else {
        return None;
    };
    let read = read_text(alloc, &text).ok()?;
    drop(text);
    let (written, found) = view_of(alloc, view, &read.spans).ok()?;
    let notes = Notes {
        faults: read.faults,
        spanless: read.spanless,
        found,
    };
    Some((written, notes))
}

/// What a view writes of spans, and whether anything is drawn.
fn view_of(alloc: Global, view: View, spans: &[ShownSpan]) -> Result<(Vec<u8>, Found), AllocError>
    ensures { IfOk result (λ drawn. IsViewOf view spans.now drawn.0.items drawn.1) }
{
    let traces = Traces::of(alloc, spans)?.chosen(alloc, view.choice)?;
    let found = found_in(spans, &traces);
    let written = match view.form {
        ViewForm::Picture(form) => form.draw(alloc, &traces, view.choice.attributes)?,
        ViewForm::Summary => traces.to_summary(alloc)?,
        ViewForm::Html => traces.to_html(alloc)?,
    };
    Ok((written, found))
}

/// Whether anything is drawn of spans, of which these traces are chosen.
fn found_in(spans: &[ShownSpan], chosen: &Traces<'_>) -> Found
    ensures { result ≡ found_in spans.now (plain_traces chosen.now).traces }
{
    if spans.is_empty() {
        Found::NoSpan
    } else if chosen.is_empty() {
        Found::NoTrace
    } else {
        Found::Traces
    }
}

/// Appends an item of a list, by its number.
fn push_item(said: &mut String, list: ItemList, number: u64) -> Result<(), AllocError>
    ensures { OnOk result (TextGrows said.old (item_text list number) said.new) }
{
    match list {
        ItemList::ResourceSpans => write!(said, "resource {number}"),
        ItemList::Resources => write!(said, "the service of resource {number}"),
        ItemList::ResourceAttributes(resource) => {
            write!(said, "attribute {number} of resource {resource}")
        }
        ItemList::ScopeSpans(resource) => { write!(said, "scope {number} of resource {resource}") }
        ItemList::Spans(resource, scope) => {
            write!(
                said,
                "span {number} of scope {scope} of resource {resource}"
            )
        }
        ItemList::SpanAttributes(span_id) => {
            write!(said, "attribute {number} of span {span_id}")
        }
        ItemList::SpanEvents(span_id) => write!(said, "event {number} of span {span_id}"),
        ItemList::EventAttributes(span_id, event) => {
            write!(
                said,
                "attribute {number} of event {event} of span {span_id}"
            )
        }
        ItemList::SpanLinks(span_id) => write!(said, "link {number} of span {span_id}"),
        ItemList::LinkAttributes(span_id, link) => {
            write!(said, "attribute {number} of link {link} of span {span_id}")
        }
    }
}

/// Appends which item was left out, if it is one.
fn push_place(said: &mut String, item: Option<ItemPlace>) -> Result<(), AllocError>
    ensures { OnOk result (TextGrows said.old (place_text item) said.new) }
{
    match item {
        Some(place) => {
            push_item(said, place.list, place.number)?;
            write!(said, " is left out: ")
        }
        None => Ok(()),
    }
}

/// Appends the line that names a fault.
fn push_fault(said: &mut String, found: LineFault) -> Result<(), AllocError>
    ensures { OnOk result (TextGrows said.old (fault_line found) said.new) }
{
    let line = found.line;
    let why = found.fault.text();
    write!(said, "line {line}: ")?;
    push_place(said, found.item)?;
    write!(said, "{why}\n")
}

/// The lines that name faults.
fn fault_lines(alloc: Global, found: &[LineFault]) -> Result<String, AllocError>
    ensures { IfOk result (λ said. string_bytes said ≡ fault_lines found.now) }
{
    let mut said = String::new(alloc);
    for fault in found {
        push_fault(&mut said, *fault)?;
    }
    Ok(said)
}

/// Appends that nothing is drawn, and why.
fn push_found(said: &mut String, found: Found) -> Result<(), AllocError>
    ensures { OnOk result (TextGrows said.old (found_line found) said.new) }
{
    match found {
        Found::NoSpan => said.push_str(NO_SPANS),
        Found::NoTrace => said.push_str("no such trace\n"),
        Found::Traces => Ok(()),
    }
}

/// Appends how many requests have no spans, if one has none.
fn push_spanless(said: &mut String, spanless: u64) -> Result<(), AllocError>
    ensures { OnOk result (TextGrows said.old (spanless_line spanless) said.new) }
{
    if spanless == 0 {
        return Ok(());
    }
    write!(said, "requests without spans: {spanless}\n")
}

/// What is said of an input beside its view.
fn notes_text(alloc: Global, notes: &Notes) -> Result<String, AllocError>
    ensures { IfOk result (λ said. string_bytes said ≡ notes_text notes.now) }
{
    let mut said = fault_lines(alloc, &notes.faults)?;
    push_spanless(&mut said, notes.spanless)?;
    push_found(&mut said, notes.found)?;
    Ok(said)
}

/// Says that, if there is anything, and answers the status for it.
fn tell<F: Write>(alloc: Global, notes: &Notes, faults: &mut F) -> u8
    ensures { (result ≡ 1) ⊎ (StatusOf notes.now result
        × Tells (faults.new ≡ faults.old) (Appends (F.contents faults.old) (F.contents faults.new))
        (notes_text notes.now)) }
{
    let Ok(said) = notes_text(alloc, notes) else {
        return FAILED;
    };
    if !said.is_empty() && write_whole(faults, said.as_bytes()).is_err() {
        return FAILED;
    }
    if notes.faults.is_empty() {
        DONE
    } else {
        REFUSED
    }
}
