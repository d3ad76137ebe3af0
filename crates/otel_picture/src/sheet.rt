//! A trace of the text form: its spans, its scale and the rooms of its rows.

ghost use Rattle.std.specs.Prelude.{◌≡◌, ◌<◌, All, count_by, length};
ghost use Rattle.opentelemetry.specs.PlainValues.{plain_status};
ghost use Rattle.otel_picture.specs.Families.{HaveSpans};
ghost use Rattle.otel_picture.specs.Orders.{mark_at};
ghost use Rattle.otel_picture.specs.PlainSheets.{are_mixed, first_service, is_error, is_orphan, sheet_of, span_of};

use crate::bar::Scale;
use crate::layout::Layout;
use crate::rows::{Mark, Row};
use crate::trace::Trace;
use opentelemetry::SpanId;
use opentelemetry::trace::Status;
use otel_shown::ShownSpan;

/// What is drawn of a trace, and how.
#[derive(Drop)]
pub(crate) struct Sheet<'a> {
    pub(crate) spans: &'a [ShownSpan],
    pub(crate) trace: &'a Trace,
    pub(crate) layout: Layout,
    pub(crate) scale: Scale,
    /// Whether its spans are of more services than one.
    pub(crate) is_mixed: bool,
    ghost there: { HaveSpans spans.now trace.now.family.marks.items },
    ghost bars: { scale.columns ≡ layout.bar },
}

/// Whether it is an error.
pub(crate) fn is_error(status: &Status) -> bool
    ensures { result ≡ is_error (plain_status status.now) }
{
    matches!(status, Status::Error { .. })
}

/// The service of the first span of a trace; empty where it has none.
pub(crate) fn first_service<'a>(spans: &'a [ShownSpan], marks: &[Mark]) -> &'a str
    requires { HaveSpans spans.now marks.now }
    ensures { result.now ≡ first_service spans.now marks.now }
{
    match marks.first() {
        Some(mark) => {
            let span = &spans[mark.place];
            span.resource.service()
        }
        None => "",
    }
}

/// Whether the spans of a trace are of more services than one.
fn are_mixed(spans: &[ShownSpan], marks: &[Mark]) -> bool
    requires { HaveSpans spans.now marks.now }
    ensures { result ≡ are_mixed spans.now marks.now }
{
    let first = first_service(spans, marks);
    for mark in marks {
        let span = &spans[mark.place];
        if span.resource.service() != first {
            return true;
        }
    }
    false
}

impl<'a> Sheet<'a> {
    ghost use Rattle.otel_picture.specs.Sheets.{plain_sheet};
    ghost use Rattle.otel_picture.specs.Traces.{plain_trace};

    pub(crate) fn of(spans: &'a [ShownSpan], trace: &'a Trace, layout: Layout) -> Sheet<'a>
        requires wide { 0 < layout.bar }
        requires there { HaveSpans spans.now trace.now.family.marks.items }
        ensures { plain_sheet result ≡ sheet_of layout spans.now (plain_trace trace.now) }
    {
        let marks = trace.family.marks.as_slice();
        Sheet {
            spans,
            trace,
            layout,
            scale: Scale::of(marks, layout.bar),
            is_mixed: are_mixed(spans, marks),
        }
    }

    /// How many of its spans failed.
    pub(crate) fn errors(&self) -> usize
        ensures { result ≡ count_by (λ mark. is_error (span_of self.now.spans.now mark).status)
            self.now.trace.now.family.marks.items }
    {
        let mut errors = 0;
        for mark in &self.trace.family.marks {
            let span = &self.spans[mark.place];
            if is_error(&span.status) {
                errors += 1;
            }
        }
        errors
    }

    /// Whether the span of a row names a parent that is not in the picture.
    pub(crate) fn is_orphan(&self, row: Row) -> bool
        requires { row.span < length self.now.trace.now.family.marks.items }
        ensures { result ≡ is_orphan self.now.trace.now.family.marks.items
            (mark_at self.now.trace.now.family.marks.items row.span) }
    {
        let family = &self.trace.family;
        family.marks[row.span].parent != SpanId::INVALID && family.parents[row.span].is_none()
    }
}
