//! The laws of the JSON of batches, over the definitions alone. Each function does nothing; its contract is the law,
//! for all values.

ghost use Rattle.std.specs.Prelude.{◌≡◌, ◌==◌, ◌++◌, ◌∷◌, [], List, Some, map};
ghost use Rattle.std.specs.List.{AllByRecursion, slice_split};
ghost use Rattle.json.specs.Json.{document};
ghost use Rattle.otel_resource.specs.Resource.{PlainResource};
ghost use Rattle.otel_export.specs.PlainSpanData.{PlainSpanData, spans_in};
ghost use Rattle.otel_otlp.specs.Fits.{RequestFits};
ghost use Rattle.otel_otlp.specs.Otlp.{otlp_line, otlp_lines, otlp_text, request};
ghost use Rattle.otel_otlp.specs.ScopeRuns.{IsRun, ScopesChange, scope_runs};
ghost use Rattle.otel_otlp.specs.Seen.{AreSeenAlike};

/// The runs of a batch, joined, are the batch; each is of one scope; and neighbours are of different ones.
pub fn runs_join()
    ensures joined { (batch : List PlainSpanData) → spans_in (scope_runs batch) ≡ batch }
    ensures runs { (batch : List PlainSpanData) → AllByRecursion IsRun (scope_runs batch) }
    ensures apart { (batch : List PlainSpanData) → ScopesChange (scope_runs batch) }
{}

/// The JSON of a batch and its resource loses nothing but what JSON has no word for: two that have one request are
/// seen alike.
pub fn json_loses_nothing()
    ensures { (these those : PlainResource) (batch other : List PlainSpanData) → RequestFits these batch
        → RequestFits those other → request these batch ≡ request those other
        → AreSeenAlike these those batch other }
{}

/// The text of a batch is a JSON document: that of its request. So a line is of one request.
pub fn lines_read_back()
    ensures document { (resource : PlainResource) (batch : List PlainSpanData) → RequestFits resource batch
        → document (otlp_text resource batch) ≡ Some (request resource batch) }
    ensures once { (these those : PlainResource) (batch other : List PlainSpanData) → RequestFits these batch
        → RequestFits those other → otlp_line these batch ≡ otlp_line those other
        → request these batch ≡ request those other }
{}

/// The lines of batches, cut at their line feeds, are the texts of the batches, and nothing after them.
pub fn lines_are_cut()
    ensures { (resource : PlainResource) (batches : List (List PlainSpanData))
        → slice_split (λ b. b == 10) (otlp_lines resource batches) ≡ map (otlp_text resource) batches ++ [] ∷ [] }
{}
