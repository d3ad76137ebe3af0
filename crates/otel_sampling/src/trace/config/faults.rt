//! Which strings of a configuration do not read, and what stands in their places: a sampler's name in capital letters,
//! say, samples as its parent. An application asks for them once, where it makes its provider, and says them.

ghost use Rattle.std.specs.Prelude.{◌≡◌, ◌↔◌, ℕ, IfOk, IsTrue, string_bytes};
ghost use Rattle.std.specs.Option.{option_map};
ghost use Rattle.otel_sampling.specs.Config.{AreConfiguredLimits};
ghost use Rattle.otel_sampling.specs.ConfigFaults.{AreFaults, IsBoolean, IsIgnored, IsIgnoredString, IsSamplerName, Reads};
ghost use Rattle.otel_sampling.specs.ConfigFaults.{all_settings, length_in_place, replacement, setting_name, string_of};
ghost use Rattle.otel_sampling.specs.ConfigStrings.{IsNumber, IsQueueSize};
ghost use Rattle.otel_sampling.specs.Ratio.{PlainRatio, IsRatioText};
ghost use Rattle.otel_sampling.specs.declared.trace.span_limit.SpanLimits.{SpanLimits as TheLimits};

use super::{configured_limits, queue_size};
use crate::trace::{ConfigStrings, Ratio, SpanLimits};
use std::alloc::{AllocError, Global};
use std::fmt;

/// A setting that a string configures, in the order of `ConfigStrings`.
#[derive(Clone, Copy, Debug, PartialEq, Eq)]
pub enum Setting {
    ScheduleDelay,
    MaxQueueSize,
    MaxExportBatchSize,
    ExportTimeout,
    SdkDisabled,
    AttributeCountLimit,
    GeneralAttributeCountLimit,
    EventAttributeCountLimit,
    LinkAttributeCountLimit,
    AttributeValueLengthLimit,
    GeneralAttributeValueLengthLimit,
    EventCountLimit,
    LinkCountLimit,
    Sampler,
    SamplerArg,
}

/// What stands in the place of a string that was ignored.
#[derive(Clone, Copy, Debug, PartialEq, Eq)]
pub enum Replacement {
    /// The sampler `parentbased_always_on`.
    ParentBasedAlwaysOn,
    /// The ratio of all traces.
    AllTraces,
    /// So many attributes, events, links, characters or spans.
    Count(u64),
    /// Texts of any length.
    NoLimit,
    Milliseconds(u64),
    /// Spans record.
    NotDisabled,
}

/// A setting whose string was ignored, since it does not read.
#[derive(Clone, Copy, Debug, PartialEq, Eq)]
pub struct SettingFault {
    pub setting: Setting,
    pub in_its_place: Replacement,
}

impl ConfigStrings {
    /// Which strings are ignored, each once, in the order of `Setting`: those that are there, are not empty and do not
    /// read. An empty one counts as unset.
    pub fn faults(&self, alloc: Global) -> Result<Vec<SettingFault>, AllocError>
        ensures { IfOk result (λ faults. (limits : TheLimits) × AreConfiguredLimits self.now limits
            × AreFaults self.now limits all_settings faults.items) }
    {
        let limits = configured_limits(self);
        let mut faults = Vec::new(alloc);
        for setting in &Setting::ALL {
            if setting.ignores(self.string(*setting)) {
                faults.push(SettingFault {
                    setting: *setting,
                    in_its_place: setting.replacement(&limits),
                })?;
            }
        }
        Ok(faults)
    }

    /// The string of a setting.
    fn string(&self, setting: Setting) -> &Option<String>
        ensures { option_map string_bytes result.now ≡ string_of self.now setting }
    {
        match setting {
            Setting::ScheduleDelay => &self.batch.schedule_delay,
            Setting::MaxQueueSize => &self.batch.max_queue_size,
            Setting::MaxExportBatchSize => &self.batch.max_export_batch_size,
            Setting::ExportTimeout => &self.batch.export_timeout,
            Setting::SdkDisabled => &self.sdk_disabled,
            Setting::AttributeCountLimit => &self.attribute_count_limit,
            Setting::GeneralAttributeCountLimit => &self.general_attribute_count_limit,
            Setting::EventAttributeCountLimit => &self.event_attribute_count_limit,
            Setting::LinkAttributeCountLimit => &self.link_attribute_count_limit,
            Setting::AttributeValueLengthLimit => &self.attribute_value_length_limit,
            Setting::GeneralAttributeValueLengthLimit => &self.general_attribute_value_length_limit,
            Setting::EventCountLimit => &self.event_count_limit,
            Setting::LinkCountLimit => &self.link_count_limit,
            Setting::Sampler => &self.sampler,
            Setting::SamplerArg => &self.sampler_arg,
        }
    }
}

impl Setting {
    const ALL: [Setting; 15] = [
        Setting::ScheduleDelay,
        Setting::MaxQueueSize,
        Setting::MaxExportBatchSize,
        Setting::ExportTimeout,
        Setting::SdkDisabled,
        Setting::AttributeCountLimit,
        Setting::GeneralAttributeCountLimit,
        Setting::EventAttributeCountLimit,
        Setting::LinkAttributeCountLimit,
        Setting::AttributeValueLengthLimit,
        Setting::GeneralAttributeValueLengthLimit,
        Setting::EventCountLimit,
        Setting::LinkCountLimit,
        Setting::Sampler,
        Setting::SamplerArg,
    ];

    /// The environment variable that its string is usually of.
    pub fn name(self) -> &'static str
        ensures { result.now ≡ setting_name self }
    {
        match self {
            Setting::ScheduleDelay => "OTEL_BSP_SCHEDULE_DELAY",
            Setting::MaxQueueSize => "OTEL_BSP_MAX_QUEUE_SIZE",
            Setting::MaxExportBatchSize => "OTEL_BSP_MAX_EXPORT_BATCH_SIZE",
            Setting::ExportTimeout => "OTEL_BSP_EXPORT_TIMEOUT",
            Setting::SdkDisabled => "OTEL_SDK_DISABLED",
            Setting::AttributeCountLimit => "OTEL_SPAN_ATTRIBUTE_COUNT_LIMIT",
            Setting::GeneralAttributeCountLimit => "OTEL_ATTRIBUTE_COUNT_LIMIT",
            Setting::EventAttributeCountLimit => "OTEL_EVENT_ATTRIBUTE_COUNT_LIMIT",
            Setting::LinkAttributeCountLimit => "OTEL_LINK_ATTRIBUTE_COUNT_LIMIT",
            Setting::AttributeValueLengthLimit => "OTEL_SPAN_ATTRIBUTE_VALUE_LENGTH_LIMIT",
            Setting::GeneralAttributeValueLengthLimit => "OTEL_ATTRIBUTE_VALUE_LENGTH_LIMIT",
            Setting::EventCountLimit => "OTEL_SPAN_EVENT_COUNT_LIMIT",
            Setting::LinkCountLimit => "OTEL_SPAN_LINK_COUNT_LIMIT",
            Setting::Sampler => "OTEL_TRACES_SAMPLER",
            Setting::SamplerArg => "OTEL_TRACES_SAMPLER_ARG",
        }
    }

    /// Whether it ignores its string.
    fn ignores(self, given: &Option<String>) -> bool
        ensures { IsTrue result ↔ IsIgnoredString self (option_map string_bytes given.now) }
    {
        match given {
            Some(text) => !text.is_empty() && !self.reads(text.as_str()),
            None => false,
        }
    }

    /// Whether it takes a text.
    fn reads(self, text: &str) -> bool
        ensures { IsTrue result ↔ Reads self text.now }
    {
        match self {
            Setting::ScheduleDelay | Setting::MaxExportBatchSize | Setting::ExportTimeout => {
                is_number(text)
            }
            Setting::MaxQueueSize => is_queue_size(text),
            Setting::SdkDisabled => is_boolean(text),
            Setting::Sampler => is_sampler_name(text),
            Setting::SamplerArg => is_ratio(text),
            Setting::AttributeCountLimit
            | Setting::GeneralAttributeCountLimit
            | Setting::EventAttributeCountLimit
            | Setting::LinkAttributeCountLimit
            | Setting::AttributeValueLengthLimit
            | Setting::GeneralAttributeValueLengthLimit
            | Setting::EventCountLimit
            | Setting::LinkCountLimit => is_limit(text),
        }
    }

    /// What stands in the place of its string, where these limits are configured.
    fn replacement(self, limits: &SpanLimits) -> Replacement
        ensures { result ≡ replacement limits.now self }
    {
        match self {
            Setting::ScheduleDelay => Replacement::Milliseconds(5_000),
            Setting::MaxQueueSize => Replacement::Count(2048),
            Setting::MaxExportBatchSize => Replacement::Count(512),
            Setting::ExportTimeout => Replacement::Milliseconds(30_000),
            Setting::SdkDisabled => Replacement::NotDisabled,
            Setting::AttributeCountLimit => count(limits.max_attributes_per_span),
            Setting::GeneralAttributeCountLimit => {
                count(SpanLimits::default().max_attributes_per_span)
            }
            Setting::EventAttributeCountLimit => count(limits.max_attributes_per_event),
            Setting::LinkAttributeCountLimit => count(limits.max_attributes_per_link),
            Setting::AttributeValueLengthLimit => length(limits.max_attribute_value_length),
            Setting::GeneralAttributeValueLengthLimit => {
                length(SpanLimits::default().max_attribute_value_length)
            }
            Setting::EventCountLimit => count(limits.max_events_per_span),
            Setting::LinkCountLimit => count(limits.max_links_per_span),
            Setting::Sampler => Replacement::ParentBasedAlwaysOn,
            Setting::SamplerArg => Replacement::AllTraces,
        }
    }
}

fn count(count: u32) -> Replacement
    ensures { result ≡ Replacement.Count count }
{
    Replacement::Count(u64::from(count))
}

fn length(length: Option<u32>) -> Replacement
    ensures { result ≡ length_in_place length }
{
    match length {
        Some(length) => count(length),
        None => Replacement::NoLimit,
    }
}

/// Whether a text is a number of 64 bits.
fn is_number(text: &str) -> bool
    ensures { IsTrue result ↔ ((number : ℕ) × IsNumber 64 text.now number) }
{
    text.parse::<u64>().is_ok()
}

/// Whether a text is a number of 32 bits.
fn is_limit(text: &str) -> bool
    ensures { IsTrue result ↔ ((number : ℕ) × IsNumber 32 text.now number) }
{
    text.parse::<u32>().is_ok()
}

/// Whether a text is how many spans may wait.
fn is_queue_size(text: &str) -> bool
    ensures { IsTrue result ↔ ((size : ℕ) × IsQueueSize text.now size) }
{
    queue_size(text).is_some()
}

fn is_boolean(text: &str) -> bool
    ensures { IsTrue result ↔ IsBoolean text.now }
{
    text.eq_ignore_ascii_case("true") || text.eq_ignore_ascii_case("false")
}

fn is_sampler_name(text: &str) -> bool
    ensures { IsTrue result ↔ IsSamplerName text.now }
{
    match text {
        "always_on" | "always_off" | "traceidratio" => true,
        "parentbased_always_on" | "parentbased_always_off" | "parentbased_traceidratio" => true,
        _ => false,
    }
}

fn is_ratio(text: &str) -> bool
    ensures { IsTrue result ↔ ((ratio : PlainRatio) × IsRatioText text.now ratio) }
{
    Ratio::from_text(text).is_some()
}

impl fmt::Display for Setting {
    ghost use Rattle.std.specs.Prelude.{Some};
    ghost use Rattle.otel_sampling.specs.ConfigFaults.{setting_name};

    ghost output = { λ setting. Some (setting_name setting) };

    fn fmt<W: fmt::Write>(&self, f: &mut fmt::Formatter<W>) -> fmt::Result {
        f.write_str(self.name())
    }
}

impl fmt::Display for Replacement {
    ghost use Rattle.std.specs.Prelude.{Some};
    ghost use Rattle.otel_sampling.specs.ConfigFaults.{replacement_text};

    ghost output = { λ replacement. Some (replacement_text replacement) };

    fn fmt<W: fmt::Write>(&self, f: &mut fmt::Formatter<W>) -> fmt::Result {
        match self {
            Replacement::ParentBasedAlwaysOn => f.write_str("parentbased_always_on"),
            Replacement::AllTraces => f.write_str("all traces"),
            Replacement::Count(count) => write!(f, "{count}"),
            Replacement::NoLimit => f.write_str("no limit"),
            Replacement::Milliseconds(count) => write!(f, "{count} ms"),
            Replacement::NotDisabled => f.write_str("not disabled"),
        }
    }
}

impl fmt::Display for SettingFault {
    ghost use Rattle.std.specs.Prelude.{Some};
    ghost use Rattle.otel_sampling.specs.ConfigFaults.{fault_text};

    ghost output = { λ fault. Some (fault_text fault) };

    fn fmt<W: fmt::Write>(&self, f: &mut fmt::Formatter<W>) -> fmt::Result {
        let setting = self.setting;
        let in_its_place = self.in_its_place;
        write!(
            f,
            "{setting} is ignored: {in_its_place} stands in its place"
        )
    }
}
