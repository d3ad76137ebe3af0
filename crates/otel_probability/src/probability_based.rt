//! The sampler by a threshold (OpenTelemetry specification, "Sampling", "ConsistentProbabilityBased"): it decides alike
//! on all spans of a trace, whatever their parents' decisions.

ghost use Rattle.std.specs.Prelude.{◌≡◌};
ghost use Rattle.otel_probability.specs.Numbers.{threshold_of_share};

use crate::Threshold;
use crate::answer::{active_in, by_threshold};
use opentelemetry::trace::{Link, SpanKind, TraceState};
use opentelemetry::{Context, KeyValue, TraceId};
use otel_sampling::trace::{Ratio, SamplingResult, ShouldSample};
use std::alloc::{AllocError, Global};
use std::marker::Model;

/// Samples the spans whose randomness is at least a threshold, which it writes into their trace state.
#[derive(Drop)]
pub struct ConsistentProbabilityBased {
    alloc: Global,
    threshold: Threshold,
}

impl Model for ConsistentProbabilityBased {
    ghost use Rattle.std.specs.Prelude.{ℕ};

    ghost Value = { ℕ };

    ghost view = { λ sampler. sampler.threshold };
}

impl ConsistentProbabilityBased {
    /// Samples this share of all traces, as near as 56 bits say it.
    pub fn new(alloc: Global, share: Ratio) -> ConsistentProbabilityBased
        ensures { result ≡ threshold_of_share share }
    {
        ConsistentProbabilityBased::at_threshold(alloc, Threshold::of_share(share))
    }

    /// Samples at this threshold.
    pub fn at_threshold(alloc: Global, threshold: Threshold) -> ConsistentProbabilityBased
        ensures { result ≡ threshold }
    {
        ConsistentProbabilityBased { alloc, threshold }
    }

    /// The threshold that the random value of a trace has to reach.
    pub fn threshold(&self) -> Threshold
        ensures { result ≡ self.now }
    {
        self.threshold
    }

    pub(crate) fn alloc(&self) -> Global {
        self.alloc
    }
}

impl ShouldSample for ConsistentProbabilityBased {
    ghost use Rattle.otel_probability.specs.Answers.{ProbabilityIsFree, probability_answer};

    ghost answer = { probability_answer };

    ghost is_infallible = { ProbabilityIsFree };

    fn should_sample(
        &self,
        parent_context: Option<&Context>,
        trace_id: TraceId,
        _name: &str,
        _span_kind: &SpanKind,
        _attributes: &[KeyValue],
        _links: &[Link],
    ) -> Result<SamplingResult, AllocError> {
        match active_in(parent_context) {
            Some(span) => by_threshold(self.alloc, self.threshold, span.trace_state(), trace_id),
            None => by_threshold(self.alloc, self.threshold, &TraceState::new(), trace_id),
        }
    }
}
