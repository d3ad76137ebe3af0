//! A sampler of one's own: it samples the spans of the requests that a service takes, marks them, and drops all others.
//!
//! `answer` says what it answers to each question, so that a start under it promises as much, and `is_infallible` which
//! questions it answers without memory: so a start of any other span takes none. Among samplers of other kinds, it is
//! `Sampler::Custom(Box::new(alloc, ServerSampler { alloc })?)`.

ghost use Rattle.std.specs.Prelude.{◌≡◌, IfOk, option_map};
ghost use Rattle.otel_examples.specs.ServerSampler.{dropped_answer, sampled_answer};

use opentelemetry::trace::{Link, SpanKind, TraceState};
use opentelemetry::{Context, Key, KeyValue, TraceId, Value};
use opentelemetry_sdk::trace::{SamplingDecision, SamplingResult, ShouldSample};
use std::alloc::{AllocError, Global};

/// Samples the spans whose kind is server. They get an attribute `b`, and the trace state of their parent.
#[derive(Drop)]
pub struct ServerSampler {
    pub alloc: Global,
}

/// The answer for a span that is sampled.
fn sampled(alloc: Global, parent_context: Option<&Context>) -> Result<SamplingResult, AllocError>
    ensures { IfOk result (λ given. given ≡ sampled_answer (option_map (λ cx. cx.now) parent_context.entry)) }
{
    let mut attributes = Vec::with_capacity(alloc, 1)?;
    attributes.push(KeyValue::new(Key::from_static_str("b"), Value::Bool(true)))?;
    let trace_state = match parent_context {
        Some(cx) => cx.span_context().trace_state().clone()?,
        None => TraceState::new(),
    };
    Ok(SamplingResult {
        decision: SamplingDecision::RecordAndSample,
        attributes: Some(attributes),
        trace_state,
    })
}

/// The answer for a span that is dropped.
fn dropped() -> SamplingResult
    ensures { result ≡ dropped_answer }
{
    SamplingResult {
        decision: SamplingDecision::Drop,
        attributes: None,
        trace_state: TraceState::new(),
    }
}

impl ShouldSample for ServerSampler {
    ghost use Rattle.std.specs.Prelude.{◌≢◌};
    ghost use Rattle.opentelemetry.specs.declared.trace.span_kind.SpanKind.TheVariants as kinds;
    ghost use Rattle.otel_examples.specs.ServerSampler.{server_answer};

    ghost answer = { λ _ question. server_answer question.span_kind question.parent_context };

    ghost is_infallible = { λ _ question. question.span_kind ≢ kinds.Server };

    fn should_sample(
        &self,
        parent_context: Option<&Context>,
        _trace_id: TraceId,
        _name: &str,
        span_kind: &SpanKind,
        _attributes: &[KeyValue],
        _links: &[Link],
    ) -> Result<SamplingResult, AllocError> {
        match span_kind {
            SpanKind::Server => sampled(self.alloc, parent_context),
            _ => Ok(dropped()),
        }
    }
}
