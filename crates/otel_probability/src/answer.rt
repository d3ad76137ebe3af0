//! What both samplers share: the span that is active, and answers without attributes.

ghost use Rattle.std.specs.Prelude.{◌≡◌, [], IfOk, IsOk, false, option_map};
ghost use Rattle.otel_probability.specs.Answers.{bare_answer, by_threshold, keeps_trace};
ghost use Rattle.otel_sampling.specs.Sampler.{active_in};

use crate::Threshold;
use crate::trace_state::{randomness_in, with_threshold, without_threshold};
use opentelemetry::trace::{SpanContext, TraceState};
use opentelemetry::{Context, TraceId};
use otel_sampling::trace::{SamplingDecision, SamplingResult};
use std::alloc::{AllocError, Global};

/// The context of the span that is active in a context.
pub fn active_in<'a>(context: Option<&'a Context>) -> Option<&'a SpanContext>
    ensures { option_map (λ span. span.now) result ≡ active_in (option_map (λ cx. cx.now) context.entry) }
{
    match context {
        Some(context) if context.has_active_span() => Some(context.span_context()),
        _ => None,
    }
}

/// The answer that adds no attributes.
pub fn bare_answer(decision: SamplingDecision, trace_state: TraceState) -> SamplingResult
    ensures { result ≡ bare_answer decision trace_state }
{
    SamplingResult {
        decision,
        attributes: None,
        trace_state,
    }
}

/// The answer by a threshold for a trace whose parent hands on this trace state.
pub fn by_threshold(
    alloc: Global,
    threshold: Threshold,
    state: &TraceState,
    trace_id: TraceId,
) -> Result<SamplingResult, AllocError>
    ensures value { IfOk result (λ given. given ≡ by_threshold threshold state.now trace_id) }
    ensures free { keeps_trace threshold state.now trace_id ≡ false → state.now ≡ [] → IsOk result }
{
    if threshold.keeps(randomness_in(state, trace_id)) {
        let kept = with_threshold(state, alloc, threshold)?;
        return Ok(bare_answer(SamplingDecision::RecordAndSample, kept));
    }
    let erased = without_threshold(state, alloc)?;
    Ok(bare_answer(SamplingDecision::Drop, erased))
}
