//! The laws of a pipeline, over the definitions alone. Each function does nothing; its contract is the law.

ghost use Rattle.otel_embed.specs.Conserved.{CallsConserve, CallsDo, HearsWhatItHolds, Hosted};
ghost use Rattle.otel_embed.specs.SettingLines.{LastLinesCount};

use crate::pipeline::HostInside;
use crate::pipeline_of::PipelineOf;
use otel_pipeline::trace::{KeepsBatches, Provides};
use otel_sampling::trace::{GivesIds, ShouldSample};

/// Over every list of calls the lines that were handed out, followed by those that are held, are in order and each once
/// those that were held at first and those of the batches that the processor's exporter stored meanwhile; and the
/// processor follows what the ends delivered: each sampled span of these is heard by its exporter, or waits for it, but
/// for those that it dropped, which it counts, and those that it refused, which their ends count.
pub fn calls_conserve_spans<P: KeepsBatches, S: ShouldSample, G: GivesIds>()
    ensures { CallsConserve ⟦<PipelineOf<P, S, G> as Provides>⟧.calls }
{}

/// What each call of a pipeline does to its flow is one of the things over whose lists the law above is.
pub fn each_call_does<P: KeepsBatches, S: ShouldSample, G: GivesIds>()
    ensures { CallsDo ⟦<PipelineOf<P, S, G> as Provides>⟧.calls }
{}

/// What the processor of a host's pipeline heard is, until a batch was lost, what is stored and what waits: so the lines
/// that were handed out, those that are held and the spans in the queue are all that it heard.
pub fn hosts_hear_what_they_hold()
    ensures { (p : Hosted) → HearsWhatItHolds ⟦<HostInside as Provides>⟧.calls p }
{}

/// The setting of a name is what the last line of that name says.
pub fn last_lines_count()
    ensures { LastLinesCount }
{}
