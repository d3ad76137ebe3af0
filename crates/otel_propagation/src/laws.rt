//! The laws of headers, over the definitions alone. Each function does nothing; its contract is the law, for all values.

ghost use Rattle.std.specs.Prelude.{◌≡◌, ◌↔◌, ℕ, List, [], ◌∷◌, All, Result, Some};
ghost use Rattle.std.specs.declared.alloc.AllocError.{AllocError};
ghost use Rattle.opentelemetry.specs.PlainContexts.{current_span_context};
ghost use Rattle.opentelemetry.specs.Plain.{PlainContext, PlainSpanContext};
ghost use Rattle.opentelemetry.specs.Baggage.{PlainBaggage};
ghost use Rattle.opentelemetry.specs.Carrier.{Texts};
ghost use Rattle.otel_propagation.specs.BaggageHeader.{entries_of, header_of, Carries, InjectsBaggage, IsBaggage};
ghost use Rattle.otel_propagation.specs.BaggageHeader.{IsCarriedUnchanged, IsSaidUnchanged};
ghost use Rattle.otel_propagation.specs.Composite.{BothAreInfallible, ExtractsBoth, InjectsBoth, joined};
ghost use Rattle.otel_propagation.specs.CompositeList.{ExtractsEach, InjectsEach, ListIsInfallible, fields_onto};
ghost use Rattle.otel_propagation.specs.PropagatorKinds.{AreBoth, ExtractsByKind, InjectsByKind};
ghost use Rattle.otel_propagation.specs.Traceparent.{CarriesSpan, InjectsTraceContext, IsSpanContext};
ghost use Rattle.otel_propagation.specs.Traceparent.{IsTraceparent, IsValid, remote_copy};
ghost use Rattle.otel_propagation.specs.declared.propagation.propagator_kinds.PropagatorOf.{PropagatorOf};

use opentelemetry::propagation::TextMapPropagator;

/// The header of a baggage reads back as it, in order, where each entry is said unchanged.
pub fn baggage_headers_read_back()
    ensures { (es : PlainBaggage) → IsBaggage es → All IsSaidUnchanged es → entries_of (header_of es) ≡ es }
{}

/// What a propagator injects of such a baggage, another extracts whole and in order, over every carrier that gives back
/// what was set.
pub fn injected_baggage_is_carried()
    ensures { (cx : PlainContext) (old new : Texts) → IsBaggage cx.baggage → IsCarriedUnchanged cx.baggage
        → InjectsBaggage cx old (Ok tt) new → Carries new cx.baggage }
{}

/// A text of `traceparent` says one span context at most.
pub fn traceparents_read_once()
    ensures { (text : List ℕ) (these those : PlainSpanContext)
        → IsTraceparent text these → IsTraceparent text those → these ≡ those }
{}

/// What a propagator injects of a valid span context, another extracts: the ids, the sampled flag and the trace state,
/// remote, over every carrier that gives back what was set.
pub fn injected_span_context_is_carried()
    ensures { (cx : PlainContext) (old new : Texts) → IsSpanContext (current_span_context cx)
        → IsValid (current_span_context cx)
        → InjectsTraceContext cx old (Ok tt) new → CarriesSpan new (current_span_context cx) }
{}

/// What W3C's two propagators, as a list in either order, inject, another such list extracts: the span context, whatever
/// the baggage is, and both where both are carried.
pub fn injected_lists_are_carried<C: TextMapPropagator>()
    ensures span { (writing reading : List (PropagatorOf C)) (cx receiver found : PlainContext) (old new : Texts)
        → AreBoth writing → AreBoth reading → IsSpanContext (current_span_context cx)
        → IsValid (current_span_context cx)
        → InjectsEach (InjectsByKind C.inject_gives) writing cx old (Ok tt) new
        → ExtractsEach (ExtractsByKind C.extract_gives) reading receiver new found
        → found.span_context ≡ Some (remote_copy (current_span_context cx)) }
    ensures both { (writing reading : List (PropagatorOf C)) (cx receiver found : PlainContext) (old new : Texts)
        → AreBoth writing → AreBoth reading → IsSpanContext (current_span_context cx)
        → IsValid (current_span_context cx) → IsBaggage cx.baggage → IsCarriedUnchanged cx.baggage
        → InjectsEach (InjectsByKind C.inject_gives) writing cx old (Ok tt) new
        → ExtractsEach (ExtractsByKind C.extract_gives) reading receiver new found
        → found ≡ record receiver {
          span_context = Some (remote_copy (current_span_context cx));
          baggage = cx.baggage;
        } }
{}

/// A list of two propagators says what the pair of them says.
pub fn two_in_a_list_are_a_pair<P: TextMapPropagator>()
    ensures injects { (a b : P) (cx : PlainContext) (old new : Texts) (result : Result (Unit {0}) AllocError)
        → InjectsEach P.inject_gives (a ∷ b ∷ []) cx old result new
        ↔ InjectsBoth (P.inject_gives a) (P.inject_gives b) cx old result new }
    ensures extracts { (a b : P) (cx found : PlainContext) (texts : Texts)
        → ExtractsEach P.extract_gives (a ∷ b ∷ []) cx texts found
        ↔ ExtractsBoth (P.extract_gives a) (P.extract_gives b) cx texts found }
    ensures infallible { (a b : P) (cx : PlainContext) (texts : Texts)
        → ListIsInfallible P.extract_gives P.extract_is_infallible (a ∷ b ∷ []) cx texts
        ↔ BothAreInfallible (P.extract_gives a) (P.extract_is_infallible a) (P.extract_is_infallible b) cx texts }
    ensures fields { (a b : P) → fields_onto P.field_names [] (a ∷ b ∷ [])
        ≡ joined (P.field_names a) (P.field_names b) }
{}
