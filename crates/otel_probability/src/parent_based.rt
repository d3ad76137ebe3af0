//! The sampler by parents (OpenTelemetry specification, "Sampling", "Consistent probability sampling"): a trace is kept
//! at the threshold of its root.

ghost use Rattle.std.specs.Prelude.{◌≡◌, [], IfOk, IsOk};
ghost use Rattle.otel_probability.specs.Answers.{child_answer, consistent_state, is_consistent};

use crate::ConsistentProbabilityBased;
use crate::answer::{active_in, bare_answer, by_threshold};
use crate::trace_state::{randomness_in, threshold_in, without_threshold};
use opentelemetry::trace::{Link, SpanContext, SpanKind, TraceState};
use opentelemetry::{Context, KeyValue, TraceId};
use otel_sampling::trace::{SamplingDecision, SamplingResult, ShouldSample};
use std::alloc::{AllocError, Global};
use std::marker::Model;

/// Samples the children of sampled spans at their threshold, drops the children of others, and asks the sampler of its
/// roots about a span without a parent.
#[derive(Drop)]
pub struct ConsistentParentBased {
    roots: ConsistentProbabilityBased,
}

impl Model for ConsistentParentBased {
    ghost use Rattle.std.specs.Prelude.{ℕ};

    ghost Value = { ℕ };

    ghost view = { λ sampler. sampler.roots };
}

impl ConsistentParentBased {
    /// A sampler that decides on roots by this one, and on each other span by its parent.
    pub fn new(roots: ConsistentProbabilityBased) -> ConsistentParentBased
        ensures { result ≡ roots }
    {
        ConsistentParentBased { roots }
    }
}

/// Whether a sampled span's threshold is one at which its trace is kept.
fn is_consistent(state: &TraceState, trace_id: TraceId) -> bool
    ensures { result ≡ is_consistent state.now trace_id }
{
    match threshold_in(state) {
        Some(threshold) => threshold.keeps(randomness_in(state, trace_id)),
        None => false,
    }
}

/// A copy with its threshold where that is consistent, and without one where it is not.
fn consistent_state(
    alloc: Global,
    state: &TraceState,
    trace_id: TraceId,
) -> Result<TraceState, AllocError>
    ensures value { IfOk result (λ new. new ≡ consistent_state state.now trace_id) }
    ensures free { state.now ≡ [] → IsOk result }
{
    if is_consistent(state, trace_id) {
        state.clone()
    } else {
        without_threshold(state, alloc)
    }
}

/// The answer for the child of a span.
fn child_answer(
    alloc: Global,
    span: &SpanContext,
    trace_id: TraceId,
) -> Result<SamplingResult, AllocError>
    ensures value { IfOk result (λ given. given ≡ child_answer span.now trace_id) }
    ensures free { span.now.trace_state ≡ [] → IsOk result }
{
    if span.is_sampled() {
        let kept = consistent_state(alloc, span.trace_state(), trace_id)?;
        return Ok(bare_answer(SamplingDecision::RecordAndSample, kept));
    }
    let erased = without_threshold(span.trace_state(), alloc)?;
    Ok(bare_answer(SamplingDecision::Drop, erased))
}

impl ShouldSample for ConsistentParentBased {
    ghost use Rattle.otel_probability.specs.Answers.{ParentIsFree, parent_answer};

    ghost answer = { parent_answer };

    ghost is_infallible = { ParentIsFree };

    fn should_sample(
        &self,
        parent_context: Option<&Context>,
        trace_id: TraceId,
        _name: &str,
        _span_kind: &SpanKind,
        _attributes: &[KeyValue],
        _links: &[Link],
    ) -> Result<SamplingResult, AllocError> {
        let alloc = self.roots.alloc();
        match active_in(parent_context) {
            Some(span) => child_answer(alloc, span, trace_id),
            None => by_threshold(alloc, self.roots.threshold(), &TraceState::new(), trace_id),
        }
    }
}
