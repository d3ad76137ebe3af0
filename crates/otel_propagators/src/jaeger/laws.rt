//! The laws of the header, over the definitions alone. Each function does nothing; its contract is the law, for all
//! values.

ghost use Rattle.std.specs.Prelude.{◌≡◌, ◌<◌, ◌%◌, ◌^◌, ℕ, List};
ghost use Rattle.opentelemetry.specs.Carrier.{Texts};
ghost use Rattle.opentelemetry.specs.Headers.{IsValid};
ghost use Rattle.opentelemetry.specs.Plain.{PlainContext, PlainSpanContext};
ghost use Rattle.opentelemetry.specs.PlainContexts.{current_span_context};
ghost use Rattle.otel_propagators.specs.UberTraceId.{flags_read, flags_written};
ghost use Rattle.otel_propagators.specs.UberTraceId.{CarriesSpan, InjectsJaeger, IsUberTraceId};

/// A text of `uber-trace-id` says one span context at most.
pub fn uber_trace_ids_read_once()
    ensures { (text : List ℕ) (these those : PlainSpanContext)
        → IsUberTraceId text these → IsUberTraceId text those → these ≡ those }
{}

/// What a propagator injects of a valid span context, another extracts: the ids, and of the flags sampled and debug,
/// remote, over every carrier that gives back what was set.
pub fn injected_uber_trace_id_is_carried()
    ensures { (cx : PlainContext) (old new : Texts)
        → (current_span_context cx).trace_id < 2 ^ 128 → (current_span_context cx).span_id < 2 ^ 64
        → IsValid (current_span_context cx)
        → InjectsJaeger cx old (Ok tt) new → CarriesSpan new (current_span_context cx) }
{}

/// The sampled flag is written and read back, whatever else is set.
pub fn headers_keep_the_sampled_flag()
    ensures { (flags : ℕ) → flags_read (flags_written flags) % 2 ≡ flags % 2 }
{}
