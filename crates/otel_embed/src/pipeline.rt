//! The pipeline of a host: a processor over an exporter in memory, by the settings that the host hands in.

ghost use Rattle.std.specs.Prelude.{◌≡◌, ◌++◌, ◌∷◌, [], IfOk, OnErr, OnOk, string_bytes};
ghost use Rattle.otel_embed.specs.Opening.{BeginsAs, GoesOn, MatchKind, OpensBy, OpensOver, OpensWith, naming_library};
ghost use Rattle.otel_embed.specs.SettingLines.{settings_of};

use crate::error::PipelineError;
use crate::pipeline_of::PipelineOf;
use crate::settings::{ProcessorKind, Settings};
use opentelemetry::InstrumentationScope;
use otel_export::trace::{ExporterOf, InMemorySpanExporter, NoExporter};
use otel_pipeline::trace::provider_builder::config_from_strings;
use otel_pipeline::trace::{FromExporter, ProviderBuilderOf, ProviderOf, SpanProcessor};
use otel_processors::trace::{NoProcessor, ProcessorOf};
use otel_sampling::trace::{ConfigStrings, IdSourceOf, NoSampler, RandomIdGenerator, SamplerOf};
use std::alloc::{AllocError, Global};
use std::marker::Send;

/// What the processor of a host exports to.
pub type MemoryExporter = ExporterOf<InMemorySpanExporter, NoExporter>;

/// The processor of a host.
pub type HostProcessor = ProcessorOf<MemoryExporter, NoProcessor>;

/// What a host's starts ask.
pub type HostSampler = SamplerOf<NoSampler>;

/// Where a host's ids come from.
pub type HostIds = IdSourceOf<RandomIdGenerator>;

/// What a host's pipeline is made of.
pub type HostInside = PipelineOf<HostProcessor, HostSampler, HostIds>;

/// The pipeline of a host. Where it is let go, its open spans are abandoned and its provider is closed.
pub struct Pipeline {
    pub inside: HostInside,
    settings: Settings,
    // The names of the settings that were ignored, a line each.
    ignored: String,
}

impl Drop for Pipeline {
    fn drop(self) {
        let Pipeline {
            inside,
            settings: _,
            ignored: _,
        } = self;
        let _report = inside.close();
    }
}

/// The attributes by which a resource says that this library made it, for C (OpenTelemetry semantic conventions,
/// "Telemetry SDK").
pub const LIBRARY: &str =
    "telemetry.sdk.name=otel_proved,telemetry.sdk.language=c,telemetry.sdk.version=0.1.0,";

/// Adds a processor of a kind over this exporter.
fn with_processor<P: FromExporter>(
    builder: ProviderBuilderOf<P, HostSampler, HostIds>,
    kind: ProcessorKind,
    exporter: P::Exporter,
) -> Result<ProviderBuilderOf<P, HostSampler, HostIds>, AllocError>
    ensures { IfOk result (λ built. (made : P) × MatchKind kind (made ≡ P.simple_of exporter)
        (P.batch_of exporter builder.batch_strings made) (P.eager_batch_of exporter builder.batch_strings made)
        × (built ≡ record builder { processors = builder.processors ++ made ∷ [] })) }
{
    match kind {
        ProcessorKind::Simple => Ok(builder.with_simple_exporter(exporter)?),
        ProcessorKind::Batch => Ok(builder.with_batch_exporter(exporter)?),
        ProcessorKind::Eager => Ok(builder.with_eager_batch_exporter(exporter)?),
    }
}

/// A pipeline with one processor of a kind over this exporter, as strings configure it.
fn pipeline_with<P: FromExporter>(
    alloc: Global,
    kind: ProcessorKind,
    strings: &ConfigStrings,
    seed: u64,
    exporter: P::Exporter,
) -> Result<PipelineOf<P, HostSampler, HostIds>, AllocError>
    ensures { IfOk result (BeginsAs P.SpanProcessor (λ batch made. MatchKind kind (made ≡ P.simple_of exporter)
        (P.batch_of exporter batch made) (P.eager_batch_of exporter batch made)) strings.now seed) }
{
    let config = config_from_strings(alloc, strings, seed)?;
    let resource = config.resource.clone()?;
    let batch_strings = strings.batch.clone()?;
    let is_disabled = strings.is_sdk_disabled();
    let mut tracers = Vec::with_capacity(alloc, 1)?;
    let scope = InstrumentationScope::builder(alloc, String::from_str(alloc, "otel")?).build()?;
    let builder = ProviderOf::<P, HostSampler, HostIds>::builder_with_config(
        alloc,
        config,
        batch_strings,
        is_disabled,
    );
    let provider = with_processor(builder, kind, exporter)?.build()?;
    tracers.push_reserved(provider.tracer_with_scope(scope));
    Ok(PipelineOf::over(alloc, provider, resource, tracers))
}

/// Strings whose resource says first that this library made it, for C, unless their own attributes say otherwise.
fn naming_library(alloc: Global, mut strings: ConfigStrings) -> Result<ConfigStrings, AllocError>
    ensures { IfOk result (λ named. named ≡ naming_library strings) }
{
    let given = match &strings.resource.attributes {
        Some(given) => given.as_str(),
        None => "",
    };
    let attributes = format!(in alloc; "{LIBRARY}{given}")?;
    strings.resource.attributes = Some(attributes);
    Ok(strings)
}

/// A pipeline over an exporter in memory, by settings and strings.
fn open_as(
    alloc: Global,
    settings: &Settings,
    strings: &ConfigStrings,
    seed: u64,
) -> Result<HostInside, AllocError>
    ensures { IfOk result (OpensOver ⟦<HostProcessor as SpanProcessor>⟧ settings.now strings.now seed) }
{
    let max_spans = settings.max_undrained_spans();
    let exporter = ExporterOf::Memory(InMemorySpanExporter::with_max_spans(alloc, max_spans));
    let inside = pipeline_with(alloc, settings.processor_kind(), strings, seed, exporter)?;
    Ok(inside)
}

/// The same, by settings alone; and the names of those that were ignored.
fn open_with(
    alloc: Global,
    settings: &Settings,
    seed: u64,
) -> Result<(HostInside, String), AllocError>
    ensures { IfOk result (λ opened. OpensWith
        ⟦<HostProcessor as SpanProcessor>⟧ settings.now seed opened.0 (string_bytes opened.1)) }
{
    let strings = settings.strings(alloc)?;
    let ignored = settings.ignored(alloc, &strings)?;
    let named = naming_library(alloc, strings)?;
    let opened = open_as(alloc, settings, &named, seed);
    drop(named);
    let inside = opened?;
    Ok((inside, ignored))
}

impl Pipeline {
    /// Opens a pipeline. The settings are lines `NAME=VALUE`; the seed decides all ids.
    pub fn open(alloc: Global, settings: &[u8], seed: u64) -> Result<Pipeline, PipelineError>
        ensures opens { IfOk result (λ pipeline. OpensBy
            ⟦<HostProcessor as SpanProcessor>⟧ settings.now seed pipeline.inside (string_bytes pipeline.ignored)) }
        ensures settings { IfOk result (λ pipeline. pipeline.settings ≡ settings_of settings.now) }
    {
        let Ok(text) = str::from_utf8(settings) else {
            return Err(PipelineError::NotUtf8);
        };
        let settings = Settings::read(alloc, text)?;
        match open_with(alloc, &settings, seed) {
            Ok((inside, ignored)) => Ok(Pipeline {
                inside,
                settings,
                ignored,
            }),
            Err(error) => {
                drop(settings);
                Err(PipelineError::from(error))
            }
        }
    }

    /// Goes on in the child of a fork as a pipeline that was opened with the same settings and this seed. What is open,
    /// waits or was exported is the parent's, and is forgotten. Tracers keep their numbers, and no key is used again.
    pub fn go_on(&mut self, alloc: Global, seed: u64) -> Result<(), PipelineError>
        ensures ok { OnOk result (GoesOn
            ⟦<HostProcessor as SpanProcessor>⟧ self.old.settings seed self.old.inside self.new.inside
            × (self.new.settings ≡ self.old.settings) × (self.new.ignored ≡ self.old.ignored)) }
        ensures err { OnErr result (self.new ≡ self.old) }
    {
        let (fresh, _ignored) = open_with(alloc, &self.settings, seed)?;
        self.inside.go_on_as(fresh);
        Ok(())
    }

    /// The names of the settings that were ignored, each with a line feed after it: those that nobody knows, and those
    /// whose values do not read.
    pub fn ignored_settings(&self) -> &str
        ensures { result.now ≡ string_bytes self.now.ignored }
    {
        self.ignored.as_str()
    }
}

fn crosses<T: Send>(_value: &T) {}

/// A pipeline may go to another thread, one call at a time.
pub fn may_cross(pipeline: &Pipeline) {
    crosses(pipeline);
}
