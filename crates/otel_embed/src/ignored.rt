//! Which settings are ignored: those that nobody knows, and those whose values do not read.

ghost use Rattle.std.specs.Prelude.{◌≡◌, ◌↔◌, ◌++◌, ◌∷◌, [], ℕ, IsTrue, List, OnOk, Some, bytes_eq, filter, map, string_bytes};
ghost use Rattle.std.specs.FinMap.{get, keys};
ghost use Rattle.std.specs.List.{list_any};
ghost use Rattle.opentelemetry.specs.TextMap.{text_map};
ghost use Rattle.otel_sampling.specs.ConfigFaults.{setting_name};
ghost use Rattle.otel_embed.specs.IgnoredSettings.{NamesUnreadMax, SaysMax, is_unread, known_names, name_lines};
ghost use Rattle.otel_embed.specs.SettingLines.{max_undrained_name};

use crate::settings::{MAX_UNDRAINED_SPANS, PROCESSOR, named_kind};
use otel_sampling::trace::SettingFault;
use std::alloc::AllocError;
use std::collections::BTreeMap;

/// Appends the names of the settings that nobody knows, and that of the processor's where it names no kind.
pub(crate) fn push_unread(
    names: &mut String,
    values: &BTreeMap<String, String>,
) -> Result<(), AllocError>
    ensures { OnOk result (string_bytes names.new ≡ string_bytes names.old
        ++ name_lines (filter (is_unread (text_map values.now)) (keys (text_map values.now)))) }
{
    for name in values.keys() {
        if is_unread(values, name.as_str()) {
            push_line(names, name.as_str())?;
        }
    }
    Ok(())
}

/// Appends the name of the setting of how many spans may be kept, where its text says none.
pub(crate) fn push_unread_max(
    names: &mut String,
    values: &BTreeMap<String, String>,
) -> Result<(), AllocError>
    ensures { OnOk result ((unread : List (List ℕ))
        × NamesUnreadMax (get (text_map values.now) max_undrained_name) unread
        × (string_bytes names.new ≡ string_bytes names.old ++ name_lines unread)) }
{
    match values.get(MAX_UNDRAINED_SPANS) {
        Some(text) => push_unless_max(names, text.as_str()),
        None => Ok(()),
    }
}

/// The same, where the setting has a text.
fn push_unless_max(names: &mut String, text: &str) -> Result<(), AllocError>
    ensures { OnOk result ((unread : List (List ℕ)) × NamesUnreadMax (Some text.now) unread
        × (string_bytes names.new ≡ string_bytes names.old ++ name_lines unread)) }
{
    if says_max(text) {
        return Ok(());
    }
    push_line(names, MAX_UNDRAINED_SPANS)
}

/// Whether a text says how many spans may be kept, or nothing.
fn says_max(text: &str) -> bool
    ensures { IsTrue result ↔ SaysMax text.now }
{
    text.is_empty() || text.parse::<u64>().is_ok()
}

/// Appends the names of the settings whose strings do not read.
pub(crate) fn push_faults(names: &mut String, faults: &[SettingFault]) -> Result<(), AllocError>
    ensures { OnOk result (string_bytes names.new ≡ string_bytes names.old
        ++ name_lines (map (λ fault. setting_name fault.setting) faults.now)) }
{
    for fault in faults {
        push_line(names, fault.setting.name())?;
    }
    Ok(())
}

fn push_line(names: &mut String, name: &str) -> Result<(), AllocError>
    ensures { OnOk result (string_bytes names.new ≡ string_bytes names.old ++ name_lines (name.now ∷ [])) }
{
    names.push_str(name)?;
    names.push('\n')
}

/// Whether a setting has no meaning here, or is that of the processor and names none.
fn is_unread(values: &BTreeMap<String, String>, name: &str) -> bool
    ensures { result ≡ is_unread (text_map values.now) name.now }
{
    !is_known(name) || (name == PROCESSOR && named_kind(values).is_none())
}

/// Whether a setting has a meaning here.
fn is_known(name: &str) -> bool
    ensures { result ≡ list_any (bytes_eq name.now) known_names }
{
    match name {
        PROCESSOR
        | MAX_UNDRAINED_SPANS
        | "OTEL_RESOURCE_ATTRIBUTES"
        | "OTEL_SERVICE_NAME"
        | "OTEL_BSP_SCHEDULE_DELAY"
        | "OTEL_BSP_MAX_QUEUE_SIZE"
        | "OTEL_BSP_MAX_EXPORT_BATCH_SIZE"
        | "OTEL_BSP_EXPORT_TIMEOUT"
        | "OTEL_SDK_DISABLED"
        | "OTEL_SPAN_ATTRIBUTE_COUNT_LIMIT"
        | "OTEL_ATTRIBUTE_COUNT_LIMIT"
        | "OTEL_EVENT_ATTRIBUTE_COUNT_LIMIT"
        | "OTEL_LINK_ATTRIBUTE_COUNT_LIMIT"
        | "OTEL_SPAN_ATTRIBUTE_VALUE_LENGTH_LIMIT"
        | "OTEL_ATTRIBUTE_VALUE_LENGTH_LIMIT"
        | "OTEL_SPAN_EVENT_COUNT_LIMIT"
        | "OTEL_SPAN_LINK_COUNT_LIMIT"
        | "OTEL_TRACES_SAMPLER"
        | "OTEL_TRACES_SAMPLER_ARG" => true,
        _ => false,
    }
}
