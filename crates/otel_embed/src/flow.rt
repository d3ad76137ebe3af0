//! What becomes of ended spans: the queue is worked off, what was exported becomes lines, and lines are handed out.

ghost use Rattle.std.specs.Prelude.{◌≡◌, IfErr, IfOk, IsOk, OnOk, length};
ghost use Rattle.otel_embed.specs.Flows.{flushed, ran, shut};
ghost use Rattle.otel_embed.specs.Drains.{Collects, CountsIn, DrainsAll, DrainsSome, FlowsBy};

use crate::error::PipelineError;
use crate::numbers::{Numbers, dropped_in, spans_in, waiting_in};
use crate::pipeline_of::PipelineOf;
use opentelemetry::Moment;
use otel_pipeline::trace::first_processor::{
    kept_by_first, lost_by_first, spans_lost_by_first, take_of_first,
};
use otel_pipeline::trace::{KeepsBatches, Provides};
use otel_sampling::trace::{GivesIds, ShouldSample};

impl<P: KeepsBatches, S: ShouldSample, G: GivesIds> PipelineOf<P, S, G> {
    /// Exports what waits in the queue. `NotExported` where that failed.
    pub fn flush(&mut self) -> Result<(), PipelineError>
        ensures flows { FlowsBy ⟦<PipelineOf<P, S, G> as Provides>⟧.calls flushed (IsOk result) self.old
            self.new }
        ensures err { IfErr result (λ error. error ≡ PipelineError.NotExported) }
    {
        self.provider
            .force_flush()
            .map_err(|_| PipelineError::NotExported)
    }

    /// Exports what is due at this moment, which is not before that of an earlier call. `NotExported` where that failed.
    pub fn run_due(&mut self, now: Moment) -> Result<(), PipelineError>
        ensures flows { FlowsBy ⟦<PipelineOf<P, S, G> as Provides>⟧.calls
            (ran now.0) (IsOk result) self.old self.new }
        ensures err { IfErr result (λ error. error ≡ PipelineError.NotExported) }
    {
        self.provider
            .run_processors(now)
            .map_err(|_| PipelineError::NotExported)
    }

    /// Exports what waits, and nothing afterwards. `NotExported` where that failed, or it was shut down before.
    pub fn shutdown(&mut self) -> Result<(), PipelineError>
        ensures flows { FlowsBy ⟦<PipelineOf<P, S, G> as Provides>⟧.calls
            shut (IsOk result) self.old self.new }
        ensures err { IfErr result (λ error. error ≡ PipelineError.NotExported) }
    {
        self.provider
            .shutdown()
            .map_err(|_| PipelineError::NotExported)
    }

    /// Turns the batches that were exported into lines, where none are held.
    fn collect_lines(&mut self) -> Result<(), PipelineError>
        ensures ok { OnOk result (Collects ⟦<PipelineOf<P, S, G> as Provides>⟧.calls self.old self.new) }
        ensures err { IfErr result (λ error. (error ≡ PipelineError.OutOfMemory) × (self.new ≡ self.old)) }
    {
        if self.lines.len() > 0 {
            return Ok(());
        }
        let batches = kept_by_first(self.provider.processors());
        self.lines.fill(self.alloc, &self.resource, batches)?;
        let _written = take_of_first(self.alloc, &mut self.provider);
        Ok(())
    }

    /// Hands out the lines of what was exported: they are copied to the beginning of the buffer where it has room for
    /// all of them, and forgotten. The answer is how many bytes they take; where that is more than the buffer has room
    /// for, nothing is copied and nothing forgotten, and the next call hands out the same lines.
    pub fn drain(&mut self, buffer: &mut [u8]) -> Result<usize, PipelineError>
        ensures room { length buffer.new ≡ length buffer.old }
        ensures ok { IfOk result (λ count. DrainsAll ⟦<PipelineOf<P, S, G> as Provides>⟧.calls
            self.old buffer.old count buffer.new self.new) }
        ensures err { IfErr result (λ error. (error ≡ PipelineError.OutOfMemory) × (self.new ≡ self.old)
            × (buffer.new ≡ buffer.old)) }
    {
        self.collect_lines()?;
        Ok(self.lines.hand_all(buffer))
    }

    /// Hands out as many of the lines of what was exported as the buffer has room for, the oldest first. The answer is
    /// how many bytes they take; where the first has no room, what that takes, and nothing is copied or forgotten.
    pub fn drain_some(&mut self, buffer: &mut [u8]) -> Result<usize, PipelineError>
        ensures room { length buffer.new ≡ length buffer.old }
        ensures ok { IfOk result (λ count. DrainsSome ⟦<PipelineOf<P, S, G> as Provides>⟧.calls
            self.old buffer.old count buffer.new self.new) }
        ensures err { IfErr result (λ error. (error ≡ PipelineError.OutOfMemory) × (self.new ≡ self.old)
            × (buffer.new ≡ buffer.old)) }
    {
        self.collect_lines()?;
        Ok(self.lines.hand_some(buffer))
    }

    /// How many spans are where.
    pub fn numbers(&self) -> Numbers
        ensures { CountsIn ⟦<PipelineOf<P, S, G> as Provides>⟧.calls self.now result }
    {
        let processors = self.provider.processors();
        Numbers {
            open_spans: self.spans.len() as u64,
            waiting_spans: waiting_in(processors),
            dropped_spans: dropped_in(processors),
            refused_spans: self.refusals,
            lost_batches: lost_by_first(processors),
            lost_spans: spans_lost_by_first(processors),
            undrained_spans: self
                .lines
                .span_count()
                .saturating_add(spans_in(kept_by_first(processors))),
            undrained_bytes: self.lines.len() as u64,
        }
    }
}
