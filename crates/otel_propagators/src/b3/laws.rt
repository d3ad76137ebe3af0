//! The laws of B3 headers, over the definitions alone. Each function does nothing; its contract is the law, for all
//! values.

ghost use Rattle.std.specs.Prelude.{◌≡◌, ◌<◌, ◌%◌, ◌/◌, ◌^◌, ℕ, List, None};
ghost use Rattle.opentelemetry.specs.Carrier.{Texts};
ghost use Rattle.opentelemetry.specs.Headers.{IsValid};
ghost use Rattle.opentelemetry.specs.Plain.{PlainContext, PlainSpanContext};
ghost use Rattle.opentelemetry.specs.PlainContexts.{current_span_context};
ghost use Rattle.otel_propagators.specs.B3.{flags_of, state_of, IsMany, IsSingle};
ghost use Rattle.otel_propagators.specs.B3Headers.{CarriesSpan, InjectsB3, LeavesRoom, SaysSpan};
ghost use Rattle.otel_propagators.specs.Deferred.{HasDeferredParent};
ghost use Rattle.otel_propagators.specs.declared.b3.deferred.B3Deferred.{B3Deferred};
ghost use Rattle.otel_propagators.specs.declared.b3.encoding.B3Encoding.{B3Encoding};
ghost use Rattle.otel_sampling.specs.ParentBased.{delegates_of};
ghost use Rattle.otel_sampling.specs.Sampling.{SamplingQuestion};
ghost use Rattle.otel_sampling.specs.declared.trace.parent_based.ParentBased.{ParentBased};

use crate::b3::B3Deferred;
use otel_sampling::trace::{ParentBased, ShouldSample};

/// A text of the single header, the many headers, and all of them together say one span context at most.
pub fn b3_headers_read_once()
    ensures single { (text : List ℕ) (these those : PlainSpanContext)
        → IsSingle text these → IsSingle text those → these ≡ those }
    ensures many { (texts : Texts) (these those : PlainSpanContext)
        → IsMany texts these → IsMany texts those → these ≡ those }
    ensures both { (texts : Texts) (these those : PlainSpanContext)
        → SaysSpan texts these → SaysSpan texts those → these ≡ those }
{}

/// What a propagator injects of a valid span context, another extracts, of whichever encoding either is: the ids and
/// the sampling state, remote, over every carrier that gives back what was set. Where the many headers alone are
/// written, the carrier has none of what would be read in their place.
pub fn injected_b3_is_carried()
    ensures { (encoding : B3Encoding) (cx : PlainContext) (old new : Texts)
        → (current_span_context cx).trace_id < 2 ^ 128 → (current_span_context cx).span_id < 2 ^ 64
        → IsValid (current_span_context cx) → LeavesRoom encoding old
        → InjectsB3 encoding cx old (Ok tt) new → CarriesSpan new (current_span_context cx) }
{}

/// What flags keep of a sampling state is read back as it. The sampled flag is kept where the debug one is not set,
/// which implies it.
pub fn flags_keep_sampling_states()
    ensures kept { (flags : ℕ) → state_of (flags_of (state_of flags)) ≡ state_of flags }
    ensures sampled { (flags : ℕ) → flags / 4 % 2 ≡ 0 → flags_of (state_of flags) % 2 ≡ flags % 2 }
    ensures debug { (flags : ℕ) → flags / 4 % 2 ≡ 1 → flags_of (state_of flags) % 2 ≡ 1 }
{}

/// Under a `B3Deferred` over a `ParentBased` the sampler of roots decides on the child of a parent in another process
/// that left the decision open, and on every other span the `ParentBased` does.
pub fn deferred_decisions_are_those_of_roots<S: ShouldSample>()
    ensures deferred { (deferred : B3Deferred (ParentBased S)) (question : SamplingQuestion)
        → HasDeferredParent question.parent_context
        → ⟦<B3Deferred<ParentBased<S>> as ShouldSample>⟧.answer deferred question
        ≡ S.answer (delegates_of deferred.sampler).root (record question { parent_context = None }) }
    ensures others { (deferred : B3Deferred (ParentBased S)) (question : SamplingQuestion)
        → ¬ (HasDeferredParent question.parent_context)
        → ⟦<B3Deferred<ParentBased<S>> as ShouldSample>⟧.answer deferred question
        ≡ ⟦<ParentBased<S> as ShouldSample>⟧.answer deferred.sampler question }
{}
