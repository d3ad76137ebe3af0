//! The settings of a pipeline: lines `NAME=VALUE`, as the variables of an environment. Their names are those that the
//! OpenTelemetry specification gives ("Environment Variable Specification"), and one of our own for the processor.

ghost use Rattle.std.specs.Prelude.{◌≡◌, IfOk, OnOk, Some, string_bytes};
ghost use Rattle.opentelemetry.specs.TextMap.{text_map};
ghost use Rattle.otel_sampling.specs.ConfigStrings.{IsConfiguredNumber};
ghost use Rattle.otel_embed.specs.IgnoredSettings.{ListsIgnored};
ghost use Rattle.otel_embed.specs.SettingLines.{AreStringsOf, IsMaxUndrained, kind_named, named_kind, processor_kind, setting_of};
ghost use Rattle.otel_embed.specs.SettingLines.{settings_of, with_line};

use crate::ignored::{push_faults, push_unread, push_unread_max};
use otel_host::{EnvError, Variables, config_strings_in};
use otel_sampling::trace::ConfigStrings;
use std::alloc::{AllocError, Global};
use std::collections::BTreeMap;
use std::marker::Model;

/// The setting that says when a processor exports.
pub(crate) const PROCESSOR: &str = "OTEL_SPAN_PROCESSOR";

/// The setting that says how many exported spans are kept at most until they are drained.
pub(crate) const MAX_UNDRAINED_SPANS: &str = "OTEL_C_MAX_UNDRAINED_SPANS";

/// How many that are where nothing else is said.
const MAX_UNDRAINED_SPANS_DEFAULT: u64 = 65_536;

/// When ended spans are exported.
#[derive(Clone, Copy, Debug, PartialEq, Eq)]
pub enum ProcessorKind {
    /// In the call that ends the span.
    Simple,
    /// When the queue is flushed, or run when that is due.
    Batch,
    /// The same, and full batches in the call that ends the span that fills them.
    Eager,
}

/// Settings by their names.
#[derive(Drop)]
pub(crate) struct Settings {
    values: BTreeMap<String, String>,
}

impl Model for Settings {
    ghost use Rattle.std.specs.Coded.{coded_list, coded_ℕ};
    ghost use Rattle.std.specs.FinMap.{code};
    ghost use Rattle.opentelemetry.specs.TextMap.{TextMap, text_map};

    ghost Value = { TextMap };

    ghost coded = { code (coded_list coded_ℕ) (coded_list coded_ℕ) };

    ghost view = { λ a. text_map a.values };
}

impl Variables for Settings {
    ghost use Rattle.otel_embed.specs.SettingLines.{IsSetting};

    ghost holds = { IsSetting };

    fn value(&self, name: &'static str) -> Result<Option<String>, EnvError> {
        match self.values.get(name) {
            Some(text) => match text.clone() {
                Ok(copy) => Ok(Some(copy)),
                Err(_) => Err(EnvError::OutOfMemory),
            },
            None => Ok(None),
        }
    }
}

impl Settings {
    /// Reads lines. A line without an equals sign is a name without a value; of two lines of one name the later counts.
    pub(crate) fn read(alloc: Global, text: &str) -> Result<Settings, AllocError>
        ensures { IfOk result (λ settings. settings ≡ settings_of text.now) }
    {
        let mut values = BTreeMap::new(alloc);
        for line in text.lines() {
            add_line(alloc, &mut values, line)?;
        }
        Ok(Settings { values })
    }

    /// The strings that configure an SDK.
    pub(crate) fn strings(&self, alloc: Global) -> Result<ConfigStrings, AllocError>
        ensures { IfOk result (AreStringsOf self.now) }
    {
        match config_strings_in(alloc, self, "otel") {
            Ok(strings) => Ok(strings),
            Err(_) => Err(AllocError),
        }
    }

    /// When spans are exported; eager where nothing is said, or what does not read.
    pub(crate) fn processor_kind(&self) -> ProcessorKind
        ensures { result ≡ processor_kind self.now }
    {
        named_kind(&self.values).unwrap_or(ProcessorKind::Eager)
    }

    /// How many exported spans are kept at most until they are drained.
    pub(crate) fn max_undrained_spans(&self) -> u64
        ensures { IsMaxUndrained self.now result }
    {
        match self.values.get(MAX_UNDRAINED_SPANS) {
            Some(text) => max_said(text.as_str()),
            None => MAX_UNDRAINED_SPANS_DEFAULT,
        }
    }

    /// The names of the settings that are ignored, each with a line feed after it: those that nobody knows, and those
    /// whose values do not read.
    pub(crate) fn ignored(
        &self,
        alloc: Global,
        strings: &ConfigStrings,
    ) -> Result<String, AllocError>
        ensures { IfOk result (λ names. ListsIgnored self.now strings.now (string_bytes names)) }
    {
        let mut names = String::new(alloc);
        push_unread(&mut names, &self.values)?;
        push_unread_max(&mut names, &self.values)?;
        let faults = strings.faults(alloc)?;
        push_faults(&mut names, &faults)?;
        Ok(names)
    }
}

/// How many exported spans a text says that are kept at most.
fn max_said(text: &str) -> u64
    ensures { IsConfiguredNumber 64 (Some text.now) 65_536 result }
{
    text.parse::<u64>().unwrap_or(MAX_UNDRAINED_SPANS_DEFAULT)
}

/// The name and the value of a line.
fn setting_of(line: &str) -> (&str, &str)
    ensures { (result.0.now ≡ (setting_of line.now).0) × (result.1.now ≡ (setting_of line.now).1) }
{
    match line.split_once('=') {
        Some(setting) => setting,
        None => (line, ""),
    }
}

/// Adds the setting of a line, in place of an earlier one of its name; an empty line is none.
fn add_line(
    alloc: Global,
    values: &mut BTreeMap<String, String>,
    line: &str,
) -> Result<(), AllocError>
    ensures { OnOk result (text_map values.new ≡ with_line (text_map values.old) line.now) }
{
    if line.is_empty() {
        return Ok(());
    }
    let (name, value) = setting_of(line);
    let name = String::from_str(alloc, name)?;
    let value = String::from_str(alloc, value)?;
    let _earlier = values.insert(name, value)?;
    Ok(())
}

/// The kind of processor that a text names.
fn kind_named(text: &str) -> Option<ProcessorKind>
    ensures { result ≡ kind_named text.now }
{
    match text {
        "simple" => Some(ProcessorKind::Simple),
        "batch" => Some(ProcessorKind::Batch),
        "eager" => Some(ProcessorKind::Eager),
        _ => None,
    }
}

/// The kind of processor that settings name.
pub(crate) fn named_kind(values: &BTreeMap<String, String>) -> Option<ProcessorKind>
    ensures { result ≡ named_kind (text_map values.now) }
{
    match values.get(PROCESSOR) {
        Some(text) => kind_named(text.as_str()),
        None => None,
    }
}
