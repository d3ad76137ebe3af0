//! A scope over an exporter, as strings configure it.

ghost use Rattle.std.specs.Prelude.{◌≡◌, IfOk};
ghost use Rattle.otel_pipeline.specs.ProviderBuilder.{BeginsBy};
ghost use Rattle.otel_start.specs.Starting.{IsProviderOver, IsStarted};

use opentelemetry::InstrumentationScope;
use opentelemetry_sdk::propagation::{
    NoopTextMapPropagator, PropagatorOf, TextMapCompositePropagator,
};
use opentelemetry_sdk::trace::{
    ConfigStrings, FromExporter, IdSourceOf, Now, ProviderBuilderOf, ProviderOf, RandomIdGenerator,
    SamplerOf, Tracing,
};
use otel_pipeline::trace::provider_builder::config_from_strings;
use otel_probability::ConsistentProbabilityBased;
use std::alloc::{AllocError, Global};

/// The samplers that strings name, and one that they do not.
pub type StartedSampler = SamplerOf<ConsistentProbabilityBased>;

pub type StartedIds = IdSourceOf<RandomIdGenerator>;

/// A provider in the making. No part of it is boxed, so that all of it is known when the program is built.
pub type StartedProviderBuilder<P> = ProviderBuilderOf<P, StartedSampler, StartedIds>;

/// The propagators that `built_in_propagators` knows by name, as one.
pub type BuiltInPropagator = TextMapCompositePropagator<PropagatorOf<NoopTextMapPropagator>>;

/// A scope over such a provider.
pub type StartedScope<P, C, T> = Tracing<P, StartedSampler, StartedIds, C, T>;

/// By what a scope goes.
#[derive(Drop)]
pub struct Settings<C, T> {
    /// What configures its provider.
    pub strings: ConfigStrings,
    /// Of its ids. Each process needs one that no other has.
    pub seed: u64,
    pub clock: C,
    pub propagator: T,
}

/// A scope of a library of this name. Its provider has an eager batch processor over the exporter: spans are exported
/// where one ends that fills a batch, at a flush, and at the close.
pub fn scope_over<P: FromExporter, C: Now + Drop, T: Drop>(
    alloc: Global,
    name: &str,
    settings: Settings<C, T>,
    exporter: P::Exporter,
) -> Result<StartedScope<P, C, T>, AllocError>
    ensures { IfOk result (IsStarted P.SpanProcessor P.eager_batch_of name.now settings exporter) }
{
    let library = InstrumentationScope::builder(alloc, String::from_str(alloc, name)?).build()?;
    let Settings {
        strings,
        seed,
        clock,
        propagator,
    } = settings;
    let provider = provider_over::<P>(alloc, &strings, seed, exporter)?;
    Ok(Tracing::new(alloc, provider, library, clock, propagator))
}

/// A provider with an eager batch processor over this exporter.
fn provider_over<P: FromExporter>(
    alloc: Global,
    strings: &ConfigStrings,
    seed: u64,
    exporter: P::Exporter,
) -> Result<ProviderOf<P, StartedSampler, StartedIds>, AllocError>
    ensures { IfOk result (IsProviderOver P.SpanProcessor P.eager_batch_of strings.now seed exporter) }
{
    let builder = provider_builder::<P>(alloc, strings, seed)?;
    let provider = builder.with_eager_batch_exporter(exporter)?.build()?;
    Ok(provider)
}

/// Begins a provider that has no processor yet, and else is what the strings configure, with ids of this seed.
pub fn provider_builder<P>(
    alloc: Global,
    strings: &ConfigStrings,
    seed: u64,
) -> Result<StartedProviderBuilder<P>, AllocError>
    ensures { IfOk result (BeginsBy strings.now seed) }
{
    let config = config_from_strings(alloc, strings, seed)?;
    let batch_strings = strings.batch.clone()?;
    let is_disabled = strings.is_sdk_disabled();
    Ok(ProviderOf::builder_with_config(alloc, config, batch_strings, is_disabled))
}
