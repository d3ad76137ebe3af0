//! A provider in the making: processors are added in the order in which they are to be asked, and what the strings
//! configured is replaced (OpenTelemetry specification, "TracerProvider Creation").
//!
//! Nothing here reads an environment: the strings that are handed in stand for its variables. A call that needs memory
//! and finds none gives the builder back as it was; what was handed to that call is dropped.

ghost use Rattle.std.specs.Prelude.{◌≡◌, ◌++◌, [], ◌∷◌, false, true, IfOk, IsOk, MatchResult, Some};
ghost use Rattle.std.specs.Bool.{OnFalse};
ghost use Rattle.otel_sampling.specs.Config.{IsConfigOf};
ghost use Rattle.otel_pipeline.specs.Each.{AsksAll};
ghost use Rattle.otel_pipeline.specs.ProviderBuilder as building;
ghost use Rattle.otel_pipeline.specs.ProviderBuilder.{BeginsBy, Builds, Opens, RefusesResource, TakesResource, with_limits};

use crate::trace::provider::{provider_of_none, provider_over};
use crate::trace::{FromExporter, ProviderOf, SpanProcessor};
use otel_resource::resource::Resource;
use otel_sampling::trace::{
    BatchStrings, ConfigOf, ConfigStrings, IdSource, IdSourceOf, RandomIdGenerator, Sampler,
    SamplerOf, SpanLimits,
};
use std::alloc::{AllocError, AllocFailed, Global};
use std::marker::Model;

/// Makes a provider over processors, a sampler and a generator of ids of any one kind each. To contracts it is its
/// processors, its configuration, and the strings of its batch processors.
#[derive(Drop)]
pub struct ProviderBuilderOf<P, S, G> {
    processors: Vec<P>,
    config: ConfigOf<S, G>,
    batch_strings: BatchStrings,
    has_given_resource: bool,
    is_disabled: bool,
}

impl<P, S, G> Model for ProviderBuilderOf<P, S, G> {
    ghost use Rattle.std.specs.Coded.{codes};
    ghost use Rattle.otel_resource.specs.ResourceCode.{resource_code};
    ghost use Rattle.otel_pipeline.specs.ProviderBuilder.{BuilderState};

    ghost Value = { BuilderState P S G };

    ghost coded = { Prim.hlevel (codes, resource_code) };

    ghost view = { λ a. record {
      processors = a.processors.items;
      config = a.config;
      batch_strings = a.batch_strings;
      has_given_resource = a.has_given_resource;
      is_disabled = a.is_disabled;
    } };
}

/// What strings configure, with the SDK's generator of ids under this seed.
pub fn config_from_strings<C: Drop, D: Drop>(
    alloc: Global,
    strings: &ConfigStrings,
    seed: u64,
) -> Result<ConfigOf<SamplerOf<C>, IdSourceOf<D>>, AllocError>
    ensures { IfOk result (IsConfigOf strings.now seed) }
{
    let mut config = ConfigOf {
        sampler: SamplerOf::AlwaysOn,
        id_generator: IdSourceOf::Random(RandomIdGenerator::new(seed)),
        span_limits: SpanLimits::default(),
        resource: Resource::builder_empty(alloc).build(),
    };
    config.set_from_strings(alloc, strings, seed)?;
    Ok(config)
}

impl<P> ProviderOf<P, Sampler, IdSource> {
    /// Begins with no processor and with what the strings configure, with the SDK's generator of ids under this seed.
    pub fn builder(
        alloc: Global,
        strings: &ConfigStrings,
        seed: u64,
    ) -> Result<ProviderBuilderOf<P, Sampler, IdSource>, AllocError>
        ensures { IfOk result (BeginsBy strings.now seed) }
    {
        let config = config_from_strings(alloc, strings, seed)?;
        let batch_strings = strings.batch.clone()?;
        let is_disabled = strings.is_sdk_disabled();
        Ok(ProviderOf::builder_with_config(alloc, config, batch_strings, is_disabled))
    }
}

impl<P, S, G> ProviderOf<P, S, G> {
    /// Begins with no processor and with this configuration, over a sampler and a generator of any one kind each. The
    /// strings configure the batch processors that are added later. A disabled provider records nothing: whether it is
    /// to be is what `ConfigStrings::is_sdk_disabled` answers, where strings say it.
    pub fn builder_with_config(
        alloc: Global,
        config: ConfigOf<S, G>,
        batch_strings: BatchStrings,
        is_disabled: bool,
    ) -> ProviderBuilderOf<P, S, G>
        ensures { result ≡ building.first_builder config batch_strings is_disabled }
    {
        ProviderBuilderOf {
            processors: Vec::new(alloc),
            config,
            batch_strings,
            has_given_resource: false,
            is_disabled,
        }
    }
}

impl<P: FromExporter, S, G> ProviderBuilderOf<P, S, G> {
    /// Adds a processor that hands each sampled span to this exporter when it ends.
    pub fn with_simple_exporter(self, exporter: P::Exporter) -> Result<Self, AllocFailed<Self>>
        ensures { MatchResult result
            (λ built. built ≡ record self { processors = self.processors ++ P.simple_of exporter ∷ [] })
            (λ failed. failed.value ≡ self) }
    {
        let simple = P::simple(self.allocator(), exporter);
        self.with_span_processor(simple)
    }

    /// Adds a batch processor over this exporter, which the builder's strings configure. Its queue has no thread: a
    /// service that calls neither `force_flush` nor `run_processors` in time loses spans once it is full.
    pub fn with_batch_exporter(self, exporter: P::Exporter) -> Result<Self, AllocFailed<Self>>
        ensures { MatchResult result (building.AddsProcessor (P.batch_of exporter self.batch_strings) self)
            (λ failed. failed.value ≡ self) }
    {
        match P::batch(self.allocator(), exporter, &self.batch_strings) {
            Ok(batch) => self.with_span_processor(batch),
            Err(_) => Err(AllocFailed { value: self }),
        }
    }

    /// Adds a batch processor that exports a full batch where the span ends that fills it: the one for a service that
    /// calls nothing but the ends of its spans. The builder's strings configure it.
    pub fn with_eager_batch_exporter(self, exporter: P::Exporter) -> Result<Self, AllocFailed<Self>>
        ensures { MatchResult result (building.AddsProcessor (P.eager_batch_of exporter self.batch_strings) self)
            (λ failed. failed.value ≡ self) }
    {
        match P::eager_batch(self.allocator(), exporter, &self.batch_strings) {
            Ok(batch) => self.with_span_processor(batch),
            Err(_) => Err(AllocFailed { value: self }),
        }
    }
}

impl<P: Drop, S, G> ProviderBuilderOf<P, S, G> {
    /// Adds this processor after the others. Memory is taken where their list grows.
    pub fn with_span_processor(mut self, processor: P) -> Result<Self, AllocFailed<Self>>
        ensures { MatchResult result
            (λ built. built ≡ record self { processors = self.processors ++ processor ∷ [] })
            (λ failed. failed.value ≡ self) }
    {
        match self.processors.push(processor) {
            Ok(()) => Ok(self),
            Err(_) => Err(AllocFailed { value: self }),
        }
    }
}

impl<P, S, G> ProviderBuilderOf<P, S, G> {
    /// The provider's resource: the first that is handed in takes the place of the configured one, later ones are merged
    /// over those before. Memory is taken by a merge alone.
    pub fn with_resource(self, resource: Resource) -> Result<Self, AllocFailed<Self>>
        ensures merged { MatchResult result
            (λ built. built ≡ building.with_resource self resource)
            (λ failed. failed.value ≡ self) }
        ensures free { OnFalse self.has_given_resource (IsOk result) }
    {
        if self.has_given_resource {
            match self.config.resource.merge(self.allocator(), resource) {
                Ok(merged) => Ok(self.with_given_resource(merged)),
                Err(_) => Err(AllocFailed { value: self }),
            }
        } else {
            Ok(self.with_given_resource(resource))
        }
    }

    /// How many events a span keeps.
    pub fn with_max_events_per_span(mut self, max_events: u32) -> Self
        ensures { result ≡ with_limits self (record self.config.span_limits { max_events_per_span = max_events }) }
    {
        self.config.span_limits.max_events_per_span = max_events;
        self
    }

    /// How many attributes a span keeps.
    pub fn with_max_attributes_per_span(mut self, max_attributes: u32) -> Self
        ensures { result
            ≡ with_limits self (record self.config.span_limits { max_attributes_per_span = max_attributes }) }
    {
        self.config.span_limits.max_attributes_per_span = max_attributes;
        self
    }

    /// How many links a span keeps.
    pub fn with_max_links_per_span(mut self, max_links: u32) -> Self
        ensures { result ≡ with_limits self (record self.config.span_limits { max_links_per_span = max_links }) }
    {
        self.config.span_limits.max_links_per_span = max_links;
        self
    }

    /// How many attributes an event of a span keeps.
    pub fn with_max_attributes_per_event(mut self, max_attributes: u32) -> Self
        ensures { result
            ≡ with_limits self (record self.config.span_limits { max_attributes_per_event = max_attributes }) }
    {
        self.config.span_limits.max_attributes_per_event = max_attributes;
        self
    }

    /// How many attributes a link of a span keeps.
    pub fn with_max_attributes_per_link(mut self, max_attributes: u32) -> Self
        ensures { result
            ≡ with_limits self (record self.config.span_limits { max_attributes_per_link = max_attributes }) }
    {
        self.config.span_limits.max_attributes_per_link = max_attributes;
        self
    }

    /// How many characters each text among the attributes of a span, its events and its links keeps.
    pub fn with_max_attribute_value_length(self, max_length: u32) -> Self
        ensures { result
            ≡ with_limits self (record self.config.span_limits { max_attribute_value_length = Some max_length }) }
    {
        let span_limits = SpanLimits {
            max_attribute_value_length: Some(max_length),
            ..self.config.span_limits
        };
        self.with_span_limits(span_limits)
    }

    /// All limits of a span at once.
    pub fn with_span_limits(self, span_limits: SpanLimits) -> Self
        ensures { result ≡ with_limits self span_limits }
    {
        let config = self.config;
        let config = ConfigOf {
            span_limits,
            ..config
        };
        ProviderBuilderOf { config, ..self }
    }

    /// The builder with this resource, which was handed in or merged of those that were.
    fn with_given_resource(self, resource: Resource) -> Self
        ensures { result ≡ building.given_resource self resource }
    {
        let config = self.config;
        let config = ConfigOf { resource, ..config };
        ProviderBuilderOf {
            config,
            has_given_resource: true,
            ..self
        }
    }

    fn allocator(&self) -> Global {
        *self.processors.allocator()
    }
}

impl<P, S: Drop, G> ProviderBuilderOf<P, S, G> {
    /// The sampler that each start asks.
    pub fn with_sampler(self, sampler: S) -> Self
        ensures { result ≡ record self { config = record self.config { sampler = sampler } } }
    {
        let config = self.config;
        let config = ConfigOf { sampler, ..config };
        ProviderBuilderOf { config, ..self }
    }
}

impl<P, S, C: Drop> ProviderBuilderOf<P, S, IdSourceOf<C>> {
    /// A generator that an application wrote, in the place of the SDK's under the seed.
    pub fn with_id_generator(self, id_generator: C) -> Self
        ensures { result
            ≡ record self { config = record self.config { id_generator = IdSourceOf.Custom id_generator } } }
    {
        self.with_id_source(IdSourceOf::Custom(id_generator))
    }

    /// This source of ids, as `IdSourceOf::Xray` over the generator of AWS X-Ray.
    pub fn with_id_source(self, id_source: IdSourceOf<C>) -> Self
        ensures { result ≡ record self { config = record self.config { id_generator = id_source } } }
    {
        let config = self.config;
        let config = ConfigOf {
            id_generator: id_source,
            ..config
        };
        ProviderBuilderOf { config, ..self }
    }
}

impl<P: SpanProcessor, S, G> ProviderBuilderOf<P, S, G> {
    /// An open provider. Each processor is told the resource before, in its turn and also after one refused it.
    /// Where any of them had no memory to keep it, the builder that comes back has the processors as they are
    /// then, and its next `build` tells all of them again. Where the SDK is disabled the processors are dropped, and
    /// the provider records nothing.
    pub fn build(self) -> Result<ProviderOf<P, S, G>, AllocFailed<Self>>
        ensures { MatchResult result
            (Builds P.SpanProcessor self)
            (λ failed. RefusesResource P.SpanProcessor self failed.value) }
    {
        if self.is_disabled {
            let alloc = self.allocator();
            return Ok(provider_of_none(alloc, self.config));
        }
        self.opened()
    }

    /// The open provider.
    fn opened(self) -> Result<ProviderOf<P, S, G>, AllocFailed<Self>>
        ensures { MatchResult result
            (Opens P.SpanProcessor self)
            (λ failed. self.is_disabled ≡ false → RefusesResource P.SpanProcessor self failed.value) }
    {
        let ProviderBuilderOf {
            mut processors,
            config,
            batch_strings,
            has_given_resource,
            is_disabled,
        } = self;
        if tell_each(&mut processors, &config.resource) > 0 {
            let builder = ProviderBuilderOf {
                processors,
                config,
                batch_strings,
                has_given_resource,
                is_disabled,
            };
            return Err(AllocFailed { value: builder });
        }
        Ok(provider_over(processors, config))
    }
}

/// Each is told the resource, also after one refused it. The answer is how many refused.
fn tell_each<P: SpanProcessor>(processors: &mut [P], resource: &Resource) -> usize
    ensures { AsksAll (TakesResource P.SpanProcessor resource.now) processors.old processors.new result }
{
    let mut refused = 0;
    for processor in processors.iter_mut() {
        if processor.set_resource(resource).is_err() {
            refused += 1;
        }
    }
    refused
}
