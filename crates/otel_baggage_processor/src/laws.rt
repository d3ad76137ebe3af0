//! The laws of a processor that writes baggages into spans, over the definitions alone. Each function does nothing; its
//! contract is the law, for all values.

ghost use Rattle.std.specs.Prelude.{◌≡◌, ◌-◌, ◌<◌, ◌^◌, []};
ghost use Rattle.opentelemetry.specs.Plain.{PlainContext};
ghost use Rattle.otel_pipeline.specs.SpanHistory.{PlainSpan, after};
ghost use Rattle.otel_baggage_processor.specs.BaggageEdits.{BaggageProcessor, SetsBaggage, baggage_edits};

use crate::key_filter::KeyFilter;

/// A start that counts nothing has set every entry that is taken.
pub fn uncounted_starts_set_all<K: KeyFilter>()
    ensures { (old new : BaggageProcessor K) (before later : PlainSpan) (cx : PlainContext)
        → SetsBaggage K.takes old before cx later new
        → old.left_out < 2 ^ 64 - 1 → new.left_out ≡ old.left_out
        → later ≡ after (baggage_edits (K.takes old.keys) cx.baggage) before }
{}

/// A start in a context of which nothing is taken changes nothing.
pub fn starts_without_entries_change_nothing<K: KeyFilter>()
    ensures { (old new : BaggageProcessor K) (before later : PlainSpan) (cx : PlainContext)
        → SetsBaggage K.takes old before cx later new
        → old.left_out < 2 ^ 64 → baggage_edits (K.takes old.keys) cx.baggage ≡ []
        → (later ≡ before) × (new ≡ old) }
{}
