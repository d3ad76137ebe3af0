//! The laws of reading, over the definitions alone. Each function does nothing; its contract is the law, for all values.

ghost use Rattle.std.specs.Prelude.{◌≡◌, List, Ok, [], map};
ghost use Rattle.std.specs.List.{AllByRecursion};
ghost use Rattle.std.specs.Str.{IsUtf8};
ghost use Rattle.otel_resource.specs.Resource.{PlainResource};
ghost use Rattle.otel_export.specs.PlainSpanData.{PlainSpanData, spans_in};
ghost use Rattle.otel_otlp.specs.Fits.{ResourceFits, SpanFits};
ghost use Rattle.otel_otlp.specs.Otlp.{otlp_lines, otlp_text, request};
ghost use Rattle.otel_shown.specs.Shown.{shown_span};
ghost use Rattle.otel_otlp_read.specs.Inputs.{read_document, read_input, spanless_in};
ghost use Rattle.otel_otlp_read.specs.Requests.{read_request, resource_of, whole_batch};

use otel_otlp::laws::{lines_are_cut, lines_read_back, runs_join};

/// What this repository's exporter writes is read back: the request of a batch, and the text of that, as the spans of
/// the batch, as they are shown, of the service that the resource names, and nothing is left out. That a text is
/// UTF-8 is a premise, since to the definitions a name may be any numbers; the writer's names are strings.
pub fn what_is_written_is_read()
    ensures request { (resource : PlainResource) (batch : List PlainSpanData)
        → ResourceFits resource → AllByRecursion SpanFits batch
        → read_request (request resource batch) ≡ Ok (whole_batch resource batch) }
    ensures text { (resource : PlainResource) (batch : List PlainSpanData)
        → ResourceFits resource → AllByRecursion SpanFits batch → IsUtf8 (otlp_text resource batch)
        → read_document (otlp_text resource batch) ≡ Ok (whole_batch resource batch) }
{
    runs_join();
    lines_read_back();
}

/// The lines of batches are read as the spans of all of them, in order and each once, without a fault; of no spans are
/// those of empty batches.
pub fn lines_are_read()
    ensures { (resource : PlainResource) (batches : List (List PlainSpanData))
        → ResourceFits resource → AllByRecursion (AllByRecursion SpanFits) batches
        → AllByRecursion (λ batch. IsUtf8 (otlp_text resource batch)) batches
        → read_input (otlp_lines resource batches)
        ≡ record {
          spans = map (shown_span (resource_of resource)) (spans_in batches);
          faults = [];
          spanless = spanless_in batches;
        } }
{
    what_is_written_is_read();
    lines_read_back();
    lines_are_cut();
}
