//! The laws of thresholds, of trace states and of consistent samplers, over the definitions alone. Each function does
//! nothing; its contract is the law, for all values.

ghost use Rattle.std.specs.Prelude.{◌≡◌, ◌<◌, ◌≤◌, ◌↔◌, ◌%◌, ℕ, List, Some, None, true, false};
ghost use Rattle.std.specs.List.{AllByRecursion};
ghost use Rattle.opentelemetry.specs.Plain.{PlainSpanContext};
ghost use Rattle.opentelemetry.specs.Tracestate.{is_value};
ghost use Rattle.otel_sampling.specs.Agreement.{Agrees};
ghost use Rattle.otel_sampling.specs.Sampling.{SamplingQuestion};
ghost use Rattle.otel_sampling.specs.declared.trace.sampler.SamplingDecision.TheVariants as decisions;
ghost use Rattle.otel_probability.specs.Answers.{child_answer, is_consistent, keeps_trace, parent_answer};
ghost use Rattle.otel_probability.specs.Answers.{probability_answer, state_of};
ghost use Rattle.otel_probability.specs.Entry.{Pairs, entry_of, entry_with, randomness_in, threshold_in};
ghost use Rattle.otel_probability.specs.Entry.{with_threshold, without_threshold};
ghost use Rattle.otel_probability.specs.Hops.{AreHops, OthersFit, state_after};
ghost use Rattle.otel_probability.specs.Numbers.{WritesRandomness, WritesThreshold, every_number, randomness_of_text};
ghost use Rattle.otel_probability.specs.Numbers.{threshold_of_text, threshold_text};

/// The text of a threshold reads back.
pub fn thresholds_read_back()
    ensures { (threshold : ℕ) → threshold < every_number
        → threshold_of_text (threshold_text threshold) ≡ Some threshold }
{}

/// What is read of a text is what the text writes.
pub fn what_is_written_is_read()
    ensures thresholds { (text : List ℕ) (threshold : ℕ)
        → WritesThreshold text threshold ↔ (threshold_of_text text ≡ Some threshold) }
    ensures randomness { (text : List ℕ) (randomness : ℕ)
        → WritesRandomness text randomness ↔ (randomness_of_text text ≡ Some randomness) }
{}

/// Two readings of a text are one.
pub fn texts_write_one_number()
    ensures thresholds { (text : List ℕ) (one other : ℕ)
        → WritesThreshold text one → WritesThreshold text other → one ≡ other }
    ensures randomness { (text : List ℕ) (one other : ℕ)
        → WritesRandomness text one → WritesRandomness text other → one ≡ other }
{}

/// A threshold that is handed on is read by whoever takes it.
pub fn thresholds_are_handed_on()
    ensures { (threshold : ℕ) (state : Pairs) → threshold < every_number
        → is_value (entry_with threshold (entry_of state)) ≡ true
        → threshold_in (with_threshold threshold state) ≡ Some threshold }
{}

/// What has lost its threshold has none.
pub fn thresholds_are_erased()
    ensures { (state : Pairs) → threshold_in (without_threshold state) ≡ None }
{}

/// The threshold of a sampled span is at most its randomness.
pub fn thresholds_of_sampled_spans()
    ensures by_threshold { (threshold handed_on : ℕ) (question : SamplingQuestion)
        → (probability_answer threshold question).decision ≡ decisions.RecordAndSample
        → threshold_in (probability_answer threshold question).trace_state ≡ Some handed_on
        → handed_on ≤ randomness_in (state_of question) question.trace_id }
    ensures by_parent { (threshold handed_on : ℕ) (question : SamplingQuestion)
        → (parent_answer threshold question).decision ≡ decisions.RecordAndSample
        → threshold_in (parent_answer threshold question).trace_state ≡ Some handed_on
        → handed_on ≤ randomness_in (state_of question) question.trace_id }
{}

/// An inconsistent threshold under a sampled flag is erased: the child is sampled and has none.
pub fn inconsistent_thresholds_are_erased()
    ensures { (span : PlainSpanContext) (trace_id : ℕ) → span.trace_flags % 2 ≡ 1
        → is_consistent span.trace_state trace_id ≡ false
        → ((child_answer span trace_id).decision ≡ decisions.RecordAndSample)
        × (threshold_in (child_answer span trace_id).trace_state ≡ None) }
{}

/// What a service keeps, each keeps whose probability is at least as great, whichever services stand between them.
pub fn greater_probabilities_keep_more()
    ensures { (one other : List ℕ) (state : Pairs) (trace_id threshold greater : ℕ) → OthersFit state
        → threshold ≤ greater → keeps_trace greater (state_after one state trace_id) trace_id ≡ true
        → keeps_trace threshold (state_after other state trace_id) trace_id ≡ true }
{}

/// The children of a sampled span with a consistent threshold, and theirs, over any hops, have its decision and its
/// trace state, and so its threshold.
pub fn children_keep_the_threshold()
    ensures { (root : PlainSpanContext) (hops : List PlainSpanContext) → root.trace_flags % 2 ≡ 1
        → is_consistent root.trace_state root.trace_id ≡ true → AreHops root hops → AllByRecursion (Agrees root) hops }
{}
