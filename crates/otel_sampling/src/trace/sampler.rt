//! Which spans are recorded and sampled (OpenTelemetry specification, "Sampler"). A tracer asks its sampler about each
//! span before it starts.

ghost use Rattle.std.specs.Prelude.{◌≡◌, ◌↔◌, [], IfOk, IsFalse, IsOk, IsTrue, OnErr, option_map};
ghost use Rattle.otel_sampling.specs.SameSamplingResult.{same_answer, same_decision};
ghost use Rattle.otel_sampling.specs.Sampling.{PlainSamplingResult, SamplingQuestion, added_attributes, question_of};
ghost use Rattle.otel_sampling.specs.Sampler.{IsTryOf, active_in, built_in, has_custom, has_delegate, passed_trace_state};
ghost use Rattle.otel_sampling.specs.Sampler.{plan, ratio_decision};

use crate::trace::Ratio;
use opentelemetry::trace::{Link, SpanContext, SpanKind, TraceState};
use opentelemetry::{Context, KeyValue, TraceId};
use std::alloc::AllocError;
use std::marker::Model;

/// What becomes of a span.
#[derive(Clone, Copy, Debug, PartialEq, Eq)]
pub enum SamplingDecision {
    /// It keeps no data and is not exported.
    Drop,
    /// It keeps its data and is not exported.
    RecordOnly,
    /// It keeps its data and is exported.
    RecordAndSample,
}

/// What a sampler answers. Without attributes it takes no memory.
#[derive(Debug, Drop)]
pub struct SamplingResult {
    pub decision: SamplingDecision,
    /// They stand after those that the span starts with.
    pub attributes: Option<Vec<KeyValue>>,
    /// The trace state of the span's context.
    pub trace_state: TraceState,
}

impl Model for SamplingResult {
    ghost use Rattle.otel_sampling.specs.Sampling.{PlainSamplingResult, added_attributes};

    ghost Value = { PlainSamplingResult };

    ghost view = { λ a. record {
      decision = a.decision;
      attributes = added_attributes a.attributes;
      trace_state = a.trace_state;
    } };
}

impl SamplingResult {
    /// The attributes, in a list of none where there is none.
    fn added_attributes(&self) -> &[KeyValue]
        ensures { result.now ≡ self.now.attributes }
    {
        match &self.attributes {
            Some(attributes) => attributes.as_slice(),
            None => &[],
        }
    }
}

/// A copy of an answer's attributes. No list stands for an empty one, which takes no memory.
fn copied_attributes(
    attributes: &Option<Vec<KeyValue>>,
) -> Result<Option<Vec<KeyValue>>, AllocError>
    ensures ok { IfOk result (λ copy. added_attributes copy ≡ added_attributes attributes.now) }
    ensures free { added_attributes attributes.now ≡ [] → IsOk result }
{
    match attributes {
        Some(attributes) if !attributes.is_empty() => Ok(Some(attributes.clone()?)),
        _ => Ok(None),
    }
}

impl Clone for SamplingResult {
    ghost use Rattle.std.specs.Prelude.{◌≡◌, []};

    ghost is_clone = { λ answer copy. copy ≡ answer };

    ghost is_infallible = { λ answer. (answer.attributes ≡ []) × (answer.trace_state ≡ []) };

    /// A clone of an answer without attributes, with the empty trace state, takes no memory.
    fn clone(&self) -> Result<SamplingResult, AllocError> {
        Ok(SamplingResult {
            decision: self.decision,
            attributes: copied_attributes(&self.attributes)?,
            trace_state: self.trace_state.clone()?,
        })
    }
}

/// No list of attributes is the same as an empty one.
impl PartialEq for SamplingResult {
    ghost use Rattle.opentelemetry.specs.Same.{partial_equivalence_from_decides};
    ghost use Rattle.otel_sampling.specs.SameSamplingResult.{same_answer, same_answer_decides};

    ghost eq = { same_answer };

    ghost laws = { partial_equivalence_from_decides same_answer same_answer_decides };

    fn eq(&self, other: &SamplingResult) -> bool {
        same_decision(self.decision, other.decision)
            && self.added_attributes() == other.added_attributes()
            && self.trace_state == other.trace_state
    }
}

impl Eq for SamplingResult {
    ghost use Rattle.opentelemetry.specs.Same.{equivalence_from_decides};
    ghost use Rattle.otel_sampling.specs.SameSamplingResult.{same_answer, same_answer_decides};

    ghost laws = { equivalence_from_decides same_answer same_answer_decides };
}

fn same_decision(this: SamplingDecision, that: SamplingDecision) -> bool
    ensures { result ≡ same_decision this that }
{
    match (this, that) {
        (SamplingDecision::Drop, SamplingDecision::Drop)
        | (SamplingDecision::RecordOnly, SamplingDecision::RecordOnly)
        | (SamplingDecision::RecordAndSample, SamplingDecision::RecordAndSample) => true,
        _ => false,
    }
}

/// Decides on the spans of a provider: a function of the sampler and the question.
pub trait ShouldSample: Drop {
    /// What it answers to a question.
    ghost answer: { Self → SamplingQuestion → PlainSamplingResult };

    /// The questions that it answers even where no memory is left.
    ghost is_infallible: { Self → SamplingQuestion → Type 0 } = { λ _ _. ⊥ };

    /// Decides on a span that is about to start, from what is known of it. Where it finds no memory the span does not
    /// start.
    fn should_sample(
        &self,
        parent_context: Option<&Context>,
        trace_id: TraceId,
        name: &str,
        span_kind: &SpanKind,
        attributes: &[KeyValue],
        links: &[Link],
    ) -> Result<SamplingResult, AllocError>
        ensures answers { IfOk result (λ given. given ≡ answer self.now
            (question_of parent_context.entry trace_id name.now span_kind.now attributes.now links.now)) }
        ensures infallible { is_infallible self.now
            (question_of parent_context.entry trace_id name.now span_kind.now attributes.now links.now) → IsOk result };
}

impl ShouldSample for Box<dyn ShouldSample> {
    ghost answer = { λ b. (ShouldSample-box b).answer b.value };

    ghost is_infallible = { λ b. (ShouldSample-box b).is_infallible b.value };

    fn should_sample(
        &self,
        parent_context: Option<&Context>,
        trace_id: TraceId,
        name: &str,
        span_kind: &SpanKind,
        attributes: &[KeyValue],
        links: &[Link],
    ) -> Result<SamplingResult, AllocError> {
        (**self).should_sample(parent_context, trace_id, name, span_kind, attributes, links)
    }
}

/// The samplers of the SDK, over custom ones of any one kind.
#[derive(Drop)]
pub enum SamplerOf<C> {
    /// Every span is sampled.
    AlwaysOn,
    /// Every span is dropped.
    AlwaysOff,
    /// The child of an active span is sampled as that is, else dropped. Where no span is active the delegate decides,
    /// and of its answer the decision alone counts.
    ParentBased(Box<SamplerOf<C>>),
    /// A share of all traces is sampled and the others are dropped, by the trace id alone.
    TraceIdRatioBased(Ratio),
    /// A sampler of the application's own, whose whole answer is passed on.
    Custom(C),
}

/// How a provider decides on the spans that it starts.
pub type Sampler = SamplerOf<Box<dyn ShouldSample>>;

impl<C: ShouldSample> ShouldSample for SamplerOf<C> {
    ghost use Rattle.otel_sampling.specs.Sampler.{SamplerIsInfallible, plan, sampler_answer};

    ghost answer = { λ sampler. sampler_answer C.answer (plan sampler) };

    ghost is_infallible = { λ sampler. SamplerIsInfallible C.is_infallible (plan sampler) };

    fn should_sample(
        &self,
        parent_context: Option<&Context>,
        trace_id: TraceId,
        name: &str,
        span_kind: &SpanKind,
        attributes: &[KeyValue],
        links: &[Link],
    ) -> Result<SamplingResult, AllocError> {
        let active = active_in(parent_context);
        match self {
            SamplerOf::AlwaysOn => built_in(SamplingDecision::RecordAndSample, active),
            SamplerOf::AlwaysOff => built_in(SamplingDecision::Drop, active),
            SamplerOf::ParentBased(delegate) => match active {
                Some(span) if span.is_sampled() => {
                    built_in(SamplingDecision::RecordAndSample, active)
                }
                Some(_) => built_in(SamplingDecision::Drop, active),
                None => {
                    let answer = (**delegate).should_sample(
                        parent_context,
                        trace_id,
                        name,
                        span_kind,
                        attributes,
                        links,
                    )?;
                    built_in(answer.decision, None)
                }
            },
            SamplerOf::TraceIdRatioBased(ratio) => {
                built_in(ratio_decision(ratio, trace_id), active)
            }
            SamplerOf::Custom(custom) => custom.should_sample(
                parent_context,
                trace_id,
                name,
                span_kind,
                attributes,
                links,
            ),
        }
    }
}

impl<C: Drop> SamplerOf<C> {
    /// A copy; `None` where a custom sampler stands in the tree, since that cannot be copied.
    pub fn try_clone(&self) -> Result<Option<SamplerOf<C>>, AllocError>
        ensures ok { IfOk result (IsTryOf (plan self.now)) }
        ensures refused { OnErr result (IsFalse (has_custom (plan self.now)) × IsTrue (has_delegate (plan self.now))) }
    {
        match self {
            SamplerOf::AlwaysOn => Ok(Some(SamplerOf::AlwaysOn)),
            SamplerOf::AlwaysOff => Ok(Some(SamplerOf::AlwaysOff)),
            SamplerOf::ParentBased(delegate) => match delegate.try_clone()? {
                Some(copy) => {
                    let alloc = *Box::allocator(delegate);
                    Ok(Some(SamplerOf::ParentBased(Box::new(alloc, copy)?)))
                }
                None => Ok(None),
            },
            SamplerOf::TraceIdRatioBased(ratio) => {
                Ok(Some(SamplerOf::TraceIdRatioBased(*ratio)))
            }
            SamplerOf::Custom(_) => Ok(None),
        }
    }
}

/// The context of the span that is active in a context.
fn active_in<'a>(context: Option<&'a Context>) -> Option<&'a SpanContext>
    ensures { option_map (λ span. span.now) result ≡ active_in (option_map (λ cx. cx.now) context.entry) }
{
    match context {
        Some(context) if context.has_active_span() => Some(context.span_context()),
        _ => None,
    }
}

/// What becomes of the spans of a trace under a ratio.
fn ratio_decision(ratio: &Ratio, trace_id: TraceId) -> SamplingDecision
    ensures { result ≡ ratio_decision ratio.now trace_id }
{
    if ratio.samples(trace_id) {
        SamplingDecision::RecordAndSample
    } else {
        SamplingDecision::Drop
    }
}

/// The answer of a sampler of the SDK.
fn built_in(
    decision: SamplingDecision,
    active: Option<&SpanContext>,
) -> Result<SamplingResult, AllocError>
    ensures value { IfOk result
        (λ answer. answer ≡ built_in decision (option_map (λ span. span.now) active.entry)) }
    ensures infallible { passed_trace_state (option_map (λ span. span.now) active.entry) ≡ [] → IsOk result }
{
    let trace_state = match active {
        Some(span) => span.trace_state().clone()?,
        None => TraceState::new(),
    };
    Ok(SamplingResult {
        decision,
        attributes: None,
        trace_state,
    })
}
