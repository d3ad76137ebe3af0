//! The strings that configure an SDK, by the names that the OpenTelemetry specification gives their variables
//! ("Environment Variable Specification"). They are handed on as they stand: `ConfigStrings` says how each reads.

ghost use Rattle.std.specs.Prelude.{IfOk};
ghost use Rattle.otel_sampling.specs.ConfigFaults.{setting_name};
ghost use Rattle.otel_sampling.specs.declared.trace.config.faults.Setting.TheVariants.{
  AttributeCountLimit,
  AttributeValueLengthLimit,
  EventAttributeCountLimit,
  EventCountLimit,
  ExportTimeout,
  GeneralAttributeCountLimit,
  GeneralAttributeValueLengthLimit,
  LinkAttributeCountLimit,
  LinkCountLimit,
  MaxExportBatchSize,
  MaxQueueSize,
  Sampler,
  SamplerArg,
  ScheduleDelay,
  SdkDisabled,
};
ghost use Rattle.otel_host.specs.Environment.{IsString, ReadsResource, ReadsSettings};

use crate::variables::{EnvError, HostVariables, Variables};
use otel_resource::resource::ResourceStrings;
use otel_sampling::trace::{BatchStrings, ConfigStrings, Setting};
use std::alloc::Global;
use std::rt::Env;

/// All strings of the environment that configure an SDK, those of its resource among them; a variable that is not set
/// gives none. The program's name stands in the resource for a service that nobody named. `NotUnicode` names a variable
/// whose value is not UTF-8, `OutOfMemory` says that there is no memory for a value.
pub fn config_strings<R: Env + AllocGlobal>(
    rt: &R,
    program_name: &str,
) -> Result<ConfigStrings, EnvError> {
    config_strings_in(rt.alloc(), &HostVariables { rt }, program_name)
}

/// The strings of the environment that describe a resource, and the program's name. Errors are those of
/// [`config_strings`].
pub fn resource_strings<R: Env + AllocGlobal>(
    rt: &R,
    program_name: &str,
) -> Result<ResourceStrings, EnvError> {
    resource_strings_in(rt.alloc(), &HostVariables { rt }, program_name)
}

/// As [`config_strings`], of any variables.
pub fn config_strings_in<V: Variables>(
    alloc: Global,
    variables: &V,
    program_name: &str,
) -> Result<ConfigStrings, EnvError>
    ensures resource { IfOk result
        (λ strings. ReadsResource (V.holds variables.now) program_name.now strings.resource) }
    ensures settings { IfOk result (ReadsSettings (V.holds variables.now)) }
{
    let resource = resource_strings_in(alloc, variables, program_name)?;
    let choices = read_choices(variables)?;
    let limits = read_limits(variables)?;
    let attribute_limits = read_attribute_limits(variables)?;
    Ok(ConfigStrings {
        resource,
        batch: read_batch(variables)?,
        sdk_disabled: choices.sdk_disabled,
        attribute_count_limit: limits.attributes,
        general_attribute_count_limit: attribute_limits.count,
        event_attribute_count_limit: attribute_limits.of_event,
        link_attribute_count_limit: attribute_limits.of_link,
        attribute_value_length_limit: limits.value_length,
        general_attribute_value_length_limit: attribute_limits.value_length,
        event_count_limit: limits.events,
        link_count_limit: limits.links,
        sampler: choices.sampler,
        sampler_arg: choices.sampler_arg,
    })
}

/// As [`resource_strings`], of any variables.
pub fn resource_strings_in<V: Variables>(
    alloc: Global,
    variables: &V,
    program_name: &str,
) -> Result<ResourceStrings, EnvError>
    ensures { IfOk result (ReadsResource (V.holds variables.now) program_name.now) }
{
    let attributes = variables.value("OTEL_RESOURCE_ATTRIBUTES")?;
    let service_name = variables.value("OTEL_SERVICE_NAME")?;
    match String::from_str(alloc, program_name) {
        Ok(program_name) => Ok(ResourceStrings {
            attributes,
            service_name,
            program_name: Some(program_name),
        }),
        Err(_) => Err(EnvError::OutOfMemory),
    }
}

/// The strings by which it is chosen whether spans record, and which.
#[derive(Drop)]
struct Choices {
    sdk_disabled: Option<String>,
    sampler: Option<String>,
    sampler_arg: Option<String>,
}

fn read_choices<V: Variables>(variables: &V) -> Result<Choices, EnvError>
    ensures { IfOk result (λ found. IsString (V.holds variables.now) SdkDisabled found.sdk_disabled
        × IsString (V.holds variables.now) Sampler found.sampler
        × IsString (V.holds variables.now) SamplerArg found.sampler_arg) }
{
    Ok(Choices {
        sdk_disabled: read(variables, Setting::SdkDisabled)?,
        sampler: read(variables, Setting::Sampler)?,
        sampler_arg: read(variables, Setting::SamplerArg)?,
    })
}

/// The strings of how much a span keeps.
#[derive(Drop)]
struct Limits {
    attributes: Option<String>,
    value_length: Option<String>,
    events: Option<String>,
    links: Option<String>,
}

fn read_limits<V: Variables>(variables: &V) -> Result<Limits, EnvError>
    ensures { IfOk result (λ found. IsString (V.holds variables.now) AttributeCountLimit found.attributes
        × IsString (V.holds variables.now) AttributeValueLengthLimit found.value_length
        × IsString (V.holds variables.now) EventCountLimit found.events
        × IsString (V.holds variables.now) LinkCountLimit found.links) }
{
    Ok(Limits {
        attributes: read(variables, Setting::AttributeCountLimit)?,
        value_length: read(variables, Setting::AttributeValueLengthLimit)?,
        events: read(variables, Setting::EventCountLimit)?,
        links: read(variables, Setting::LinkCountLimit)?,
    })
}

/// The strings of how much stands in attributes, of anything that has some, of an event and of a link.
#[derive(Drop)]
struct AttributeLimits {
    count: Option<String>,
    value_length: Option<String>,
    of_event: Option<String>,
    of_link: Option<String>,
}

fn read_attribute_limits<V: Variables>(variables: &V) -> Result<AttributeLimits, EnvError>
    ensures { IfOk result (λ found. IsString (V.holds variables.now) GeneralAttributeCountLimit found.count
        × IsString (V.holds variables.now) GeneralAttributeValueLengthLimit found.value_length
        × IsString (V.holds variables.now) EventAttributeCountLimit found.of_event
        × IsString (V.holds variables.now) LinkAttributeCountLimit found.of_link) }
{
    Ok(AttributeLimits {
        count: read(variables, Setting::GeneralAttributeCountLimit)?,
        value_length: read(variables, Setting::GeneralAttributeValueLengthLimit)?,
        of_event: read(variables, Setting::EventAttributeCountLimit)?,
        of_link: read(variables, Setting::LinkAttributeCountLimit)?,
    })
}

/// The strings of a batch processor.
fn read_batch<V: Variables>(variables: &V) -> Result<BatchStrings, EnvError>
    ensures { IfOk result (λ found. V.holds variables.now (setting_name ScheduleDelay) found.schedule_delay
        × V.holds variables.now (setting_name MaxQueueSize) found.max_queue_size
        × V.holds variables.now (setting_name MaxExportBatchSize) found.max_export_batch_size
        × V.holds variables.now (setting_name ExportTimeout) found.export_timeout) }
{
    Ok(BatchStrings {
        schedule_delay: read(variables, Setting::ScheduleDelay)?,
        max_queue_size: read(variables, Setting::MaxQueueSize)?,
        max_export_batch_size: read(variables, Setting::MaxExportBatchSize)?,
        export_timeout: read(variables, Setting::ExportTimeout)?,
    })
}

/// The string of a setting.
fn read<V: Variables>(variables: &V, setting: Setting) -> Result<Option<String>, EnvError>
    ensures { IfOk result (λ found. IsString (V.holds variables.now) setting found) }
{
    variables.value(setting.name())
}
