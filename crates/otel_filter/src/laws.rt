//! The laws of a filter in front of an exporter, over the definitions alone. Each function does nothing; its contract
//! is the law, for all values.

ghost use Rattle.std.specs.Prelude.{◌≡◌, ◌≢◌, Bool, List, [], Result, filter};
ghost use Rattle.std.specs.List.{AllByRecursion};
ghost use Rattle.otel_export.specs.PlainSpanData.{PlainSpanData, spans_in};
ghost use Rattle.otel_export.specs.Telling.{Tells};
ghost use Rattle.otel_export.specs.declared.error.OTelSdkError.{OTelSdkError};
ghost use Rattle.otel_filter.specs.Filtering.{ExportsInTurn, ExportsKept, FilterState, kept_answers, kept_batches};

use crate::span_filter::SpanFilter;
use otel_export::trace::SpanExporter;

/// Where batches are exported in turn, the exporter inside was handed in turn what is kept of them, and what it
/// answered was the answer.
pub fn kept_batches_are_exported<E: SpanExporter, F: SpanFilter>()
    ensures { (old new : FilterState E F) (batches : List (List PlainSpanData))
        (answers : List (Result (Unit {0}) OTelSdkError))
        → ExportsInTurn (ExportsKept E.SpanExporter F.keeps) old batches answers new
        → ExportsInTurn E.export_gives old.exporter (kept_batches (F.keeps old.filter) batches)
        (kept_answers (F.keeps old.filter) batches answers) new.exporter }
{}

/// What the exporter inside tells goes on by what is kept of them.
pub fn kept_batches_are_told<E: SpanExporter, F: SpanFilter>()
    ensures { (old new : FilterState E F) (batches : List (List PlainSpanData))
        (answers : List (Result (Unit {0}) OTelSdkError))
        → ExportsInTurn (ExportsKept E.SpanExporter F.keeps) old batches answers new
        → Tells (E.told old.exporter) (kept_batches (F.keeps old.filter) batches) (E.told new.exporter) }
{}

/// What is kept of batches is every span that the filter keeps and no other, in order; no part is empty.
pub fn kept_batches_have_the_kept_spans()
    ensures spans { (keeps : PlainSpanData → Bool) (batches : List (List PlainSpanData))
        → spans_in (kept_batches keeps batches) ≡ filter keeps (spans_in batches) }
    ensures none_empty { (keeps : PlainSpanData → Bool) (batches : List (List PlainSpanData))
        → AllByRecursion (λ batch. batch ≢ []) (kept_batches keeps batches) }
{}
