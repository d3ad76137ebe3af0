//! The laws of spans and traces over the definitions alone. Each function does nothing; its contract is the law, for all
//! values, or for the value that a reference refers to.

ghost use Rattle.std.specs.Prelude.{◌≡◌, ◌<◌, ◌≤◌, ◌++◌, ℕ, IsNone, Some, List, [], All, Result, false, length, map};
ghost use Rattle.std.specs.Str.{IsUtf8, chars};
ghost use Rattle.std.specs.declared.alloc.AllocError.{AllocError};
ghost use Rattle.opentelemetry.specs.Carrier.{Texts};
ghost use Rattle.opentelemetry.specs.Plain.{PlainContext, PlainSpanContext};
ghost use Rattle.otel_sampling.specs.Agreement.{Agrees};
ghost use Rattle.otel_sampling.specs.ParentBased.{FollowParents, delegates_of};
ghost use Rattle.otel_sampling.specs.Sampler.{SamplerPlan, parent_based, plan};
ghost use Rattle.otel_propagation.specs.CompositeList.{ExtractsEach, InjectsEach};
ghost use Rattle.otel_propagation.specs.PropagatorKinds.{AreBoth, ExtractsByKind, InjectsByKind};
ghost use Rattle.otel_propagation.specs.Traceparent.{IsSpanContext, IsValid};
ghost use Rattle.otel_propagation.specs.declared.propagation.propagator_kinds.PropagatorOf.{PropagatorOf};
ghost use Rattle.otel_pipeline.specs.Hops.{AreDrawnHops, AreHops, EachStartBelow, GoesByParents, GoesByValidParents};
ghost use Rattle.otel_pipeline.specs.Hops.{IsAnsweredChild, IsChild, IsDrawnChild, IsReceived};
ghost use Rattle.otel_pipeline.specs.Provider.{ProviderState};
ghost use Rattle.otel_pipeline.specs.Deliveries.{EachFollows};
ghost use Rattle.otel_pipeline.specs.Ending.{Delivers, Ends, deliveries};
ghost use Rattle.otel_pipeline.specs.SpanHistory.{Edit, HasHistory, PlainSpan, SpanStart};
ghost use Rattle.otel_pipeline.specs.SpanHistory.{after, data_of, ended, recording};
ghost use Rattle.otel_pipeline.specs.StartRequest.{StartRequest, start_question};
ghost use Rattle.otel_pipeline.specs.Starting.{AnswersStart};
ghost use Rattle.otel_pipeline.specs.ValueLength.{first_chars};
ghost use Rattle.otel_sampling.specs.declared.trace.parent_based.ParentBased.{ParentBased};
ghost use Rattle.otel_sampling.specs.declared.trace.sampler.SamplerOf.{SamplerOf};

use crate::trace::{Span, SpanProcessor};
use opentelemetry::laws::span_contexts_fit;
use opentelemetry::propagation::TextMapPropagator;
use opentelemetry::trace::SpanContext;
use otel_sampling::trace::{GivesIds, ParentBased, SamplerOf, ShouldSample};

/// Each span, wherever it comes from, has a history: a start and edits that made what it records, or it is over.
pub fn spans_have_histories(span: &Span)
    ensures { HasHistory span.now }
{
    span.has_history();
}

/// A start, whatever it answers, changes the processors and the generator of a provider alone, and each processor tells
/// what it told.
pub fn starts_tell_nothing<P: SpanProcessor, S: ShouldSample, G: GivesIds>()
    ensures told { (old new : ProviderState P S G) (request : StartRequest) (result : Result PlainSpan AllocError)
        → AnswersStart P.SpanProcessor S.ShouldSample G.GivesIds old request result new
        → map P.told new.processors ≡ map P.told old.processors }
    ensures rest { (old new : ProviderState P S G) (request : StartRequest) (result : Result PlainSpan AllocError)
        → AnswersStart P.SpanProcessor S.ShouldSample G.GivesIds old request result new
        → new ≡ record old { processors = new.processors; id_generator = new.id_generator } }
{}

/// Each processor follows what an end delivers.
pub fn ends_are_followed<P: SpanProcessor, S, G>()
    ensures { (old new : ProviderState P S G) (span : PlainSpan) (moment refused : ℕ)
        → Ends P.SpanProcessor old span moment refused new
        → EachFollows P.SpanProcessor (deliveries old.is_shut moment span.recorded refused)
        old.processors new.processors }
{}

/// What an end delivers is the data of the span's history: whole lists, each cut once.
pub fn ends_deliver_histories<P: SpanProcessor, S, G>()
    ensures { (old new : ProviderState P S G) (span : PlainSpan) (moment refused : ℕ) (start : SpanStart)
        (edits : List Edit) → Ends P.SpanProcessor old span moment refused new
        → span ≡ after edits (recording start [])
        → Delivers P.SpanProcessor old.is_shut (data_of start edits moment) old.processors new.processors refused }
{}

/// What a limit of values' lengths leaves of a text: a beginning that ends between two characters and has at most so
/// many of them, and the longest one; so the whole text where it has no more.
pub fn texts_keep_their_longest_beginnings(text: &str)
    ensures beginning { (count : ℕ) → (rest : List ℕ) × (text.now ≡ first_chars count text.now ++ rest) }
    ensures within { (count : ℕ) → IsUtf8 (first_chars count text.now)
        × (length (chars (first_chars count text.now)) ≤ count) }
    ensures longest { (count : ℕ) (front rest : List ℕ) → text.now ≡ front ++ rest → IsUtf8 front
        → length (chars front) ≤ count → length front ≤ length (first_chars count text.now) }
{}

/// A span that does not record, as one that has ended, ends without any change of its provider: a second end asks
/// nobody.
pub fn second_ends_ask_nobody<P: SpanProcessor, S, G>()
    ensures { (old new : ProviderState P S G) (span : PlainSpan) (moment refused : ℕ)
        → Ends P.SpanProcessor old span moment refused new → IsNone span.recorded → new ≡ old }
{}

/// No edit reaches a span that has ended.
pub fn ended_spans_stay()
    ensures { (span : PlainSpan) (edits : List Edit) → after edits (ended span) ≡ ended span }
{}

/// `ParentBased` goes by parents, whatever its delegate.
pub fn parent_based_goes_by_parents<C: ShouldSample>()
    ensures { (sampler : SamplerOf C) (delegate : SamplerPlan C) → plan sampler ≡ parent_based delegate
        → GoesByParents ⟦<SamplerOf<C> as ShouldSample>⟧ sampler }
{}

/// A span that starts at an open provider, in a context that is not suppressed and has an active span, goes on that
/// one's trace as the sampler answers.
pub fn starts_below_spans_go_by_the_answer<P: SpanProcessor, S: ShouldSample, G: GivesIds>()
    ensures { EachStartBelow P.SpanProcessor S.ShouldSample G.GivesIds (λ sampler request parent child.
        IsAnsweredChild parent (S.answer sampler (start_question request.cx parent.trace_id request.builder)) child) }
{}

/// A span that starts at an open provider under a sampler that goes by parents, in a context that is not suppressed and
/// has an active span, is a child of that span.
pub fn starts_under_parents_make_children<P: SpanProcessor, S: ShouldSample, G: GivesIds>()
    ensures { EachStartBelow P.SpanProcessor S.ShouldSample G.GivesIds (λ sampler _ parent child.
        GoesByParents S.ShouldSample sampler → IsChild parent child) }
{}

/// Such a start is a hop of the trace, where the span id that it drew is not zero.
pub fn starts_under_parents_make_hops<P: SpanProcessor, S: ShouldSample, G: GivesIds>()
    ensures { EachStartBelow P.SpanProcessor S.ShouldSample G.GivesIds (λ sampler _ parent child.
        GoesByParents S.ShouldSample sampler → 0 < child.span_id → IsDrawnChild parent child) }
{}

/// A `ParentBased` with delegates goes by valid parents where the delegates decide as the parents did, as the
/// standard's do, whatever its sampler of roots.
pub fn parent_based_with_delegates_goes_by_parents<S: ShouldSample>()
    ensures { (sampler : ParentBased S) → FollowParents S.answer (delegates_of sampler)
        → GoesByValidParents ⟦<ParentBased<S> as ShouldSample>⟧ sampler }
{}

/// Under a sampler that goes by valid parents, such a start below a valid span makes a child, and a hop where the span
/// id that it drew is not zero.
pub fn starts_under_valid_parents_make_hops<P: SpanProcessor, S: ShouldSample, G: GivesIds>()
    ensures child { EachStartBelow P.SpanProcessor S.ShouldSample G.GivesIds (λ sampler _ parent child.
        GoesByValidParents S.ShouldSample sampler → IsValid parent → IsChild parent child) }
    ensures hop { EachStartBelow P.SpanProcessor S.ShouldSample G.GivesIds (λ sampler _ parent child.
        GoesByValidParents S.ShouldSample sampler → IsValid parent → 0 < child.span_id → IsDrawnChild parent child) }
{}

/// What a list of W3C's two propagators sends, in either order, and another such list receives, is received through
/// headers: a hop of the trace. The configured propagators of the default text are such a list.
pub fn lists_of_propagators_pass_on<C: TextMapPropagator>()
    ensures { (sending receiving : List (PropagatorOf C)) (sender receiver found : PlainContext)
        (before headers : Texts) (sent received : PlainSpanContext)
        → AreBoth sending → AreBoth receiving → sender.span_context ≡ Some sent
        → InjectsEach (InjectsByKind C.inject_gives) sending sender before (Ok tt) headers
        → ExtractsEach (ExtractsByKind C.extract_gives) receiving receiver headers found
        → found.span_context ≡ Some received → IsReceived sent received }
{}

/// What a root hands down: where a span context agrees with it, so does each of a list of hops from there, be that one
/// child alone, or one header passed on.
pub fn hops_keep_agreement()
    ensures { (root before : PlainSpanContext) (hops : List PlainSpanContext)
        → Agrees root before → AreHops before hops → All (Agrees root) hops }
{}

/// A trace is sampled whole: over every list of hops each span context agrees with the root.
pub fn hops_agree_with_their_root()
    ensures { (root : PlainSpanContext) (hops : List PlainSpanContext)
        → AreHops root hops → All (Agrees root) hops }
{}

/// From a valid root on, where each span id that was drawn is not zero, every span context on the way is valid, and each
/// agrees with the root: whatever was sent was valid, so nothing more need be known of it.
pub fn hops_stay_valid(root: &SpanContext)
    ensures valid { (hops : List PlainSpanContext) → IsValid root.now → AreDrawnHops root.now hops
        → All IsValid hops }
    ensures fit { (hops : List PlainSpanContext) → IsValid root.now → AreDrawnHops root.now hops
        → All IsSpanContext hops }
    ensures hops { (hops : List PlainSpanContext) → IsValid root.now → AreDrawnHops root.now hops
        → AreHops root.now hops }
    ensures agree { (hops : List PlainSpanContext) → IsValid root.now → AreDrawnHops root.now hops
        → All (Agrees root.now) hops }
{
    span_contexts_fit(root);
}
