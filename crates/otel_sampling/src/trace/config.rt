//! What a provider is made of besides its processors, and the strings that configure it (OpenTelemetry specification,
//! "Environment Variable Specification"). Nothing here reads an environment: the application hands its strings in, and
//! an absent one is a variable that nobody set.

ghost use Rattle.std.specs.Prelude.{◌≡◌, ℕ, IfOk, MatchOption, OnErr, OnOk, Some, string_bytes};
ghost use Rattle.std.specs.Option.{option_map};
ghost use Rattle.otel_resource.specs.DetectedResource.{IsDetected};
ghost use Rattle.otel_sampling.specs.Config.{AreConfiguredLimits, IsConfigOf, IsConfiguredSampler, IsNamed};
ghost use Rattle.otel_sampling.specs.Config.{sampler_names};
ghost use Rattle.otel_sampling.specs.ConfigStrings.{IsConfigured, IsConfiguredLength, IsConfiguredNumber};
ghost use Rattle.otel_sampling.specs.ConfigStrings.{IsConfiguredRatio, IsQueueSize, is_true};
ghost use Rattle.otel_sampling.specs.Sampler.{always_on, parent_based, plan};

use crate::trace::{
    IdSource, IdSourceOf, RandomIdGenerator, Ratio, Sampler, SamplerOf, SpanLimits,
};
use otel_resource::resource::{Resource, ResourceStrings};
use std::alloc::{AllocError, Global};
use std::marker::Model;

mod faults;

/// The most spans that a configured queue may hold.
const MOST_WAITING: usize = 1 << 20;

pub use faults::{Replacement, Setting, SettingFault};

/// The strings of a batch processor. Each is a decimal number, with a `+` in front or not; another text counts as
/// absent.
#[derive(Clone, Debug, Default, Drop)]
pub struct BatchStrings {
    /// The time between two drains by the timer in milliseconds, usually of `OTEL_BSP_SCHEDULE_DELAY`.
    pub schedule_delay: Option<String>,
    /// How many spans may wait, usually of `OTEL_BSP_MAX_QUEUE_SIZE`: from 1 to 1,048,576.
    pub max_queue_size: Option<String>,
    /// How many spans a batch has at most, usually of `OTEL_BSP_MAX_EXPORT_BATCH_SIZE`.
    pub max_export_batch_size: Option<String>,
    /// How long an export may take in milliseconds, usually of `OTEL_BSP_EXPORT_TIMEOUT`.
    pub export_timeout: Option<String>,
}

impl Model for BatchStrings {
    ghost use Rattle.std.specs.Prelude.{string_bytes};
    ghost use Rattle.std.specs.Option.{option_map};
    ghost use Rattle.otel_sampling.specs.ConfigStrings.{PlainBatchStrings};

    ghost Value = { PlainBatchStrings };

    ghost view = { λ s. record {
      schedule_delay = option_map string_bytes s.schedule_delay;
      max_queue_size = option_map string_bytes s.max_queue_size;
      max_export_batch_size = option_map string_bytes s.max_export_batch_size;
      export_timeout = option_map string_bytes s.export_timeout;
    } };
}

/// The strings that configure a provider. A limit is a decimal number below 2^32, with a `+` in front or not; another
/// text counts as absent.
#[derive(Debug, Default, Drop)]
pub struct ConfigStrings {
    pub resource: ResourceStrings,
    pub batch: BatchStrings,
    /// Whether no span is to record, usually of `OTEL_SDK_DISABLED`: it is where this is `true`, in whatever case.
    pub sdk_disabled: Option<String>,
    /// How many attributes a span keeps, usually of `OTEL_SPAN_ATTRIBUTE_COUNT_LIMIT`.
    pub attribute_count_limit: Option<String>,
    /// The same where that says nothing, usually of `OTEL_ATTRIBUTE_COUNT_LIMIT`.
    pub general_attribute_count_limit: Option<String>,
    /// How many attributes an event keeps, usually of `OTEL_EVENT_ATTRIBUTE_COUNT_LIMIT`.
    pub event_attribute_count_limit: Option<String>,
    /// How many attributes a link keeps, usually of `OTEL_LINK_ATTRIBUTE_COUNT_LIMIT`.
    pub link_attribute_count_limit: Option<String>,
    /// How many characters a text among attributes keeps, usually of `OTEL_SPAN_ATTRIBUTE_VALUE_LENGTH_LIMIT`.
    pub attribute_value_length_limit: Option<String>,
    /// The same where that says nothing, usually of `OTEL_ATTRIBUTE_VALUE_LENGTH_LIMIT`.
    pub general_attribute_value_length_limit: Option<String>,
    /// How many events a span keeps, usually of `OTEL_SPAN_EVENT_COUNT_LIMIT`.
    pub event_count_limit: Option<String>,
    /// How many links a span keeps, usually of `OTEL_SPAN_LINK_COUNT_LIMIT`.
    pub link_count_limit: Option<String>,
    /// The name of the sampler, usually of `OTEL_TRACES_SAMPLER`: `always_on`, `always_off`, `traceidratio`, or one of
    /// these after `parentbased_`. Any other text is `parentbased_always_on`.
    pub sampler: Option<String>,
    /// The ratio of a sampler by ratio, usually of `OTEL_TRACES_SAMPLER_ARG`. All traces where it is no decimal.
    pub sampler_arg: Option<String>,
}

impl Model for ConfigStrings {
    ghost use Rattle.std.specs.Prelude.{string_bytes};
    ghost use Rattle.std.specs.Option.{option_map};
    ghost use Rattle.otel_sampling.specs.ConfigStrings.{PlainConfigStrings};

    ghost Value = { PlainConfigStrings };

    ghost view = { λ s. record {
      resource = s.resource;
      batch = s.batch;
      sdk_disabled = option_map string_bytes s.sdk_disabled;
      attribute_count_limit = option_map string_bytes s.attribute_count_limit;
      general_attribute_count_limit = option_map string_bytes s.general_attribute_count_limit;
      event_attribute_count_limit = option_map string_bytes s.event_attribute_count_limit;
      link_attribute_count_limit = option_map string_bytes s.link_attribute_count_limit;
      attribute_value_length_limit = option_map string_bytes s.attribute_value_length_limit;
      general_attribute_value_length_limit = option_map string_bytes s.general_attribute_value_length_limit;
      event_count_limit = option_map string_bytes s.event_count_limit;
      link_count_limit = option_map string_bytes s.link_count_limit;
      sampler = option_map string_bytes s.sampler;
      sampler_arg = option_map string_bytes s.sampler_arg;
    } };
}

impl ConfigStrings {
    /// Whether no span is to record.
    pub fn is_sdk_disabled(&self) -> bool
        ensures { result ≡ is_true self.now.sdk_disabled }
    {
        match &self.sdk_disabled {
            Some(text) => text.eq_ignore_ascii_case("true"),
            None => false,
        }
    }
}

/// What a provider is made of besides its processors, over a sampler and a generator of ids of any one kind each.
#[derive(Drop)]
pub struct ConfigOf<S, G> {
    pub sampler: S,
    pub id_generator: G,
    pub span_limits: SpanLimits,
    pub resource: Resource,
}

/// What a provider of the SDK is made of besides its processors.
pub type Config = ConfigOf<Sampler, IdSource>;

impl<C: Drop, D: Drop> ConfigOf<SamplerOf<C>, IdSourceOf<D>> {
    /// What the strings say takes the place of what it says, with the SDK's generator of ids under this seed. Where they
    /// say nothing a child is sampled as its parent and every root is, a span keeps 128 of each kind, and the resource is
    /// that of `Resource::builder`. On an error it stays as it was.
    pub fn set_from_strings(
        &mut self,
        alloc: Global,
        strings: &ConfigStrings,
        seed: u64,
    ) -> Result<(), AllocError>
        ensures ok { OnOk result (IsConfigOf strings.now seed self.new) }
        ensures err { OnErr result (self.new ≡ self.old) }
    {
        *self = configured(alloc, strings, seed)?;
        Ok(())
    }
}

impl ConfigOf<Sampler, IdSource> {
    /// What the strings say, as of `set_from_strings`.
    pub fn from_strings(
        alloc: Global,
        strings: &ConfigStrings,
        seed: u64,
    ) -> Result<Config, AllocError>
        ensures { IfOk result (IsConfigOf strings.now seed) }
    {
        configured(alloc, strings, seed)
    }
}

/// What the strings say.
fn configured<C: Drop, D: Drop>(
    alloc: Global,
    strings: &ConfigStrings,
    seed: u64,
) -> Result<ConfigOf<SamplerOf<C>, IdSourceOf<D>>, AllocError>
    ensures { IfOk result (IsConfigOf strings.now seed) }
{
    Ok(ConfigOf {
        sampler: configured_sampler(alloc, strings)?,
        id_generator: IdSourceOf::Random(RandomIdGenerator::new(seed)),
        span_limits: configured_limits(strings),
        resource: configured_resource(alloc, strings)?,
    })
}

/// The resource that the strings describe.
fn configured_resource(alloc: Global, strings: &ConfigStrings) -> Result<Resource, AllocError>
    ensures { IfOk result (λ resource. IsDetected strings.now.resource resource) }
{
    Ok(Resource::builder(alloc, &strings.resource)?.build())
}

/// The sampler of the configured name.
fn configured_sampler<C: Drop>(
    alloc: Global,
    strings: &ConfigStrings,
) -> Result<SamplerOf<C>, AllocError>
    ensures { IfOk result (λ sampler. IsConfiguredSampler strings.now (plan sampler)) }
{
    let ratio = configured_ratio(&strings.sampler_arg);
    let Some(name) = &strings.sampler else {
        return parent_based(alloc, SamplerOf::AlwaysOn);
    };
    named_sampler(alloc, name.as_str(), ratio)
}

/// The sampler of this name, where a ratio is this one.
fn named_sampler<C: Drop>(
    alloc: Global,
    name: &str,
    ratio: Ratio,
) -> Result<SamplerOf<C>, AllocError>
    ensures { IfOk result (λ sampler. IsConfigured (IsNamed (sampler_names ratio)) (Some name.now)
        (parent_based always_on) (plan sampler)) }
{
    match name {
        "always_on" => Ok(SamplerOf::AlwaysOn),
        "always_off" => Ok(SamplerOf::AlwaysOff),
        "traceidratio" => Ok(SamplerOf::TraceIdRatioBased(ratio)),
        "parentbased_always_off" => parent_based(alloc, SamplerOf::AlwaysOff),
        "parentbased_traceidratio" => parent_based(alloc, SamplerOf::TraceIdRatioBased(ratio)),
        // `parentbased_always_on`, and every name that no sampler has.
        _ => parent_based(alloc, SamplerOf::AlwaysOn),
    }
}

fn parent_based<C: Drop>(alloc: Global, delegate: SamplerOf<C>) -> Result<SamplerOf<C>, AllocError>
    ensures { IfOk result (λ sampler. plan sampler ≡ parent_based (plan delegate)) }
{
    Ok(SamplerOf::ParentBased(Box::new(alloc, delegate)?))
}

/// The ratio of the sampler's argument.
fn configured_ratio(given: &Option<String>) -> Ratio
    ensures { IsConfiguredRatio (option_map string_bytes given.now) result }
{
    match given {
        Some(text) => Ratio::from_text(text.as_str()).unwrap_or(Ratio::ALL),
        None => Ratio::ALL,
    }
}

/// How much a span keeps.
fn configured_limits(strings: &ConfigStrings) -> SpanLimits
    ensures { AreConfiguredLimits strings.now result }
{
    let defaults = SpanLimits::default();
    let attributes = count_or(
        &strings.general_attribute_count_limit,
        defaults.max_attributes_per_span,
    );
    let value_length = length_or(
        &strings.general_attribute_value_length_limit,
        defaults.max_attribute_value_length,
    );
    SpanLimits {
        max_events_per_span: count_or(&strings.event_count_limit, defaults.max_events_per_span),
        max_attributes_per_span: count_or(&strings.attribute_count_limit, attributes),
        max_links_per_span: count_or(&strings.link_count_limit, defaults.max_links_per_span),
        max_attributes_per_event: count_or(
            &strings.event_attribute_count_limit,
            defaults.max_attributes_per_event,
        ),
        max_attributes_per_link: count_or(
            &strings.link_attribute_count_limit,
            defaults.max_attributes_per_link,
        ),
        max_attribute_value_length: length_or(&strings.attribute_value_length_limit, value_length),
    }
}

/// The number that a string writes, and else this one.
fn count_or(given: &Option<String>, default: u32) -> u32
    ensures { IsConfiguredNumber 32 (option_map string_bytes given.now) default result }
{
    match given {
        Some(text) => text.as_str().parse::<u32>().unwrap_or(default),
        None => default,
    }
}

/// How many spans may wait in front of a batch processor, where a text says it: at least one, and at most 1,048,576, whose
/// places take some 360 MB.
pub fn queue_size(text: &str) -> Option<usize>
    ensures { MatchOption result
        ((size : ℕ) → IsQueueSize text.now size → ⊥)
        (λ size. IsQueueSize text.now size) }
{
    match text.parse::<usize>() {
        Ok(size) if 0 < size && size <= MOST_WAITING => Some(size),
        _ => None,
    }
}

/// The length that a string writes, and else this one.
fn length_or(given: &Option<String>, default: Option<u32>) -> Option<u32>
    ensures { IsConfiguredLength (option_map string_bytes given.now) default result }
{
    match given {
        Some(text) => match text.as_str().parse::<u32>() {
            Ok(length) => Some(length),
            Err(_) => default,
        },
        None => default,
    }
}
