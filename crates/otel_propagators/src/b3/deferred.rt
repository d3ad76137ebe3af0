//! A sampler for services whose callers may leave the decision to them: headers of B3 with ids and no sampling state.
//! To a sampler by parents such a parent is one that is not sampled, so that it drops everything below it.

ghost use Rattle.std.specs.Prelude.{◌≡◌, option_map};
ghost use Rattle.otel_propagators.specs.Deferred.{context_to_follow, is_deferred, is_open};

use crate::b3::sampling_state::SamplingState;
use opentelemetry::trace::{Link, SpanContext, SpanKind};
use opentelemetry::{Context, KeyValue, TraceId};
use otel_sampling::trace::{SamplingResult, ShouldSample};
use std::alloc::AllocError;

/// Asks its sampler about the child of a parent in another process that left the decision open as about a root, of the
/// parent's trace, and passes every other question on.
#[derive(Drop)]
pub struct B3Deferred<S> {
    sampler: S,
}

impl<S> B3Deferred<S> {
    /// Over this sampler, which is one by parents.
    pub fn new(sampler: S) -> B3Deferred<S>
        ensures { result.sampler ≡ sampler }
    {
        B3Deferred { sampler }
    }
}

/// Whether a state leaves the decision open.
fn is_open(state: SamplingState) -> bool
    ensures { result ≡ is_open state }
{
    match state {
        SamplingState::Defer => true,
        SamplingState::Accept | SamplingState::Deny | SamplingState::Debug => false,
    }
}

/// Whether a span context is that of a parent in another process that left the decision open.
fn is_deferred(span: &SpanContext) -> bool
    ensures { result ≡ is_deferred span.now }
{
    span.is_remote() && span.is_valid() && is_open(SamplingState::of(span.trace_flags()))
}

/// The context whose active span is to be followed.
fn context_to_follow<'a>(context: Option<&'a Context>) -> Option<&'a Context>
    ensures { option_map (λ cx. cx.now) result ≡ context_to_follow (option_map (λ cx. cx.now) context.entry) }
{
    match context {
        Some(context) if !is_deferred(context.span_context()) => Some(context),
        _ => None,
    }
}

impl<S: ShouldSample> ShouldSample for B3Deferred<S> {
    ghost use Rattle.otel_propagators.specs.Deferred.{question_to_ask};

    ghost answer = { λ deferred question. S.answer deferred.sampler (question_to_ask question) };

    ghost is_infallible = { λ deferred question. S.is_infallible deferred.sampler (question_to_ask question) };

    fn should_sample(
        &self,
        parent_context: Option<&Context>,
        trace_id: TraceId,
        name: &str,
        span_kind: &SpanKind,
        attributes: &[KeyValue],
        links: &[Link],
    ) -> Result<SamplingResult, AllocError> {
        self.sampler.should_sample(
            context_to_follow(parent_context),
            trace_id,
            name,
            span_kind,
            attributes,
            links,
        )
    }
}
