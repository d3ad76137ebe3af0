//! The sampler by parents with a delegate for each kind of parent (OpenTelemetry specification, "ParentBased"): whether
//! a parent is remote, and whether it is sampled, say who decides on its child.

ghost use Rattle.std.specs.Prelude.{◌≡◌, option_map};
ghost use Rattle.otel_sampling.specs.ParentBased.{default_delegates, delegates_of, parent_delegate, parent_in};
ghost use Rattle.otel_sampling.specs.Sampler.{custom, plan};

use crate::trace::{SamplerOf, SamplingResult, ShouldSample};
use opentelemetry::trace::{Link, SpanContext, SpanKind};
use opentelemetry::{Context, KeyValue, TraceId};
use std::alloc::AllocError;

/// Asks the sampler of its roots about a span without a valid parent, and else the delegate for parents of that kind.
/// Of each, also of the one for roots, the whole answer is passed on; of that of `SamplerOf::ParentBased` the decision
/// alone.
///
/// A delegate that was not chosen is `AlwaysOn` for sampled parents and `AlwaysOff` for others. An active span whose
/// context is not valid is no parent, though a start takes its trace id.
#[derive(Drop)]
pub struct ParentBased<S> {
    root: S,
    remote_parent_sampled: SamplerOf<S>,
    remote_parent_not_sampled: SamplerOf<S>,
    local_parent_sampled: SamplerOf<S>,
    local_parent_not_sampled: SamplerOf<S>,
}

impl<S: ShouldSample> ParentBased<S> {
    /// The sampler by parents over a sampler of roots, with the standard's delegates.
    pub fn new(root: S) -> ParentBased<S>
        ensures { delegates_of result ≡ default_delegates root }
    {
        ParentBased {
            root,
            remote_parent_sampled: SamplerOf::AlwaysOn,
            remote_parent_not_sampled: SamplerOf::AlwaysOff,
            local_parent_sampled: SamplerOf::AlwaysOn,
            local_parent_not_sampled: SamplerOf::AlwaysOff,
        }
    }

    /// For children of sampled spans of another process.
    pub fn with_remote_parent_sampled(mut self, sampler: S) -> ParentBased<S>
        ensures { delegates_of result ≡ record (delegates_of self) { remote_parent_sampled = custom sampler } }
    {
        self.remote_parent_sampled = SamplerOf::Custom(sampler);
        self
    }

    /// For children of spans of another process that are not sampled.
    pub fn with_remote_parent_not_sampled(mut self, sampler: S) -> ParentBased<S>
        ensures { delegates_of result ≡ record (delegates_of self) { remote_parent_not_sampled = custom sampler } }
    {
        self.remote_parent_not_sampled = SamplerOf::Custom(sampler);
        self
    }

    /// For children of sampled spans of this process.
    pub fn with_local_parent_sampled(mut self, sampler: S) -> ParentBased<S>
        ensures { delegates_of result ≡ record (delegates_of self) { local_parent_sampled = custom sampler } }
    {
        self.local_parent_sampled = SamplerOf::Custom(sampler);
        self
    }

    /// For children of spans of this process that are not sampled.
    pub fn with_local_parent_not_sampled(mut self, sampler: S) -> ParentBased<S>
        ensures { delegates_of result ≡ record (delegates_of self) { local_parent_not_sampled = custom sampler } }
    {
        self.local_parent_not_sampled = SamplerOf::Custom(sampler);
        self
    }

    /// The delegate for a parent.
    fn delegate_for(&self, parent: &SpanContext) -> &SamplerOf<S>
        ensures { plan result.now ≡ parent_delegate (delegates_of self.now) parent.now }
    {
        match (parent.is_remote(), parent.is_sampled()) {
            (true, true) => &self.remote_parent_sampled,
            (true, false) => &self.remote_parent_not_sampled,
            (false, true) => &self.local_parent_sampled,
            (false, false) => &self.local_parent_not_sampled,
        }
    }
}

/// The parent that a context has.
fn parent_in<'a>(context: Option<&'a Context>) -> Option<&'a SpanContext>
    ensures { option_map (λ span. span.now) result ≡ parent_in (option_map (λ cx. cx.now) context.entry) }
{
    match context {
        Some(context) if context.span_context().is_valid() => Some(context.span_context()),
        _ => None,
    }
}

impl<S: ShouldSample> ShouldSample for ParentBased<S> {
    ghost use Rattle.otel_sampling.specs.ParentBased.{ParentBasedIsInfallible, delegates_of, parent_based_answer};

    ghost answer = { λ sampler. parent_based_answer S.answer (delegates_of sampler) };

    ghost is_infallible = { λ sampler. ParentBasedIsInfallible S.is_infallible (delegates_of sampler) };

    fn should_sample(
        &self,
        parent_context: Option<&Context>,
        trace_id: TraceId,
        name: &str,
        span_kind: &SpanKind,
        attributes: &[KeyValue],
        links: &[Link],
    ) -> Result<SamplingResult, AllocError> {
        match parent_in(parent_context) {
            Some(parent) => self.delegate_for(parent).should_sample(
                parent_context,
                trace_id,
                name,
                span_kind,
                attributes,
                links,
            ),
            None => self.root.should_sample(
                parent_context,
                trace_id,
                name,
                span_kind,
                attributes,
                links,
            ),
        }
    }
}
