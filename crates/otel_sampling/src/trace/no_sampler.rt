//! What stands for a sampler of the caller's own where there is none, so that a type over one can be named.

use crate::trace::{SamplingDecision, SamplingResult, ShouldSample};
use opentelemetry::trace::{Link, SpanKind, TraceState};
use opentelemetry::{Context, KeyValue, TraceId};
use std::alloc::AllocError;

/// What stands for a sampler of the caller's own, of which there is none: it drops every span.
#[derive(Drop)]
pub struct NoSampler;

impl ShouldSample for NoSampler {
    ghost use Rattle.std.specs.Prelude.{[]};
    ghost use Rattle.otel_sampling.specs.declared.trace.sampler.SamplingDecision.TheVariants as decisions;

    ghost answer = { λ _ _. record { decision = decisions.Drop; attributes = []; trace_state = [] } };

    fn should_sample(
        &self,
        _parent_context: Option<&Context>,
        _trace_id: TraceId,
        _name: &str,
        _span_kind: &SpanKind,
        _attributes: &[KeyValue],
        _links: &[Link],
    ) -> Result<SamplingResult, AllocError> {
        Ok(SamplingResult {
            decision: SamplingDecision::Drop,
            attributes: None,
            trace_state: TraceState::new(),
        })
    }
}
