//! The batches that the exporter of a processor keeps, which the replies of a session show.

ghost use Rattle.std.specs.Prelude.{◌≡◌, map};
ghost use Rattle.otel_export.specs.StoredBatches.{StoredBatches};
ghost use Rattle.otel_pipeline.specs.ProcessorKeeps.{OnlyAppends, TakesBatches};

use crate::trace::{CountsLeftSpans, Timed};
use otel_export::trace::SpanData;
use std::alloc::Global;

/// A processor whose exporter may keep its batches until they are taken. At an end, a flush, a shutdown or a drain batches
/// may only come after those that are kept, and at a start of a span none comes.
pub trait KeepsBatches: Timed + CountsLeftSpans {
    /// The batches that are kept, those that were taken, and how many were lost, with how many spans; none of each where
    /// the exporter keeps none.
    ghost stored: { Self → StoredBatches };

    /// The batches that are kept, the oldest first.
    fn batches(&self) -> &[Vec<SpanData>]
        ensures { map (λ batch. batch.items) result.now ≡ (stored self.now).batches };

    /// How many batches were handed to such an exporter and found no memory or no room.
    fn lost_batches(&self) -> u64
        ensures { result ≡ (stored self.now).lost };

    /// How many spans these had.
    fn lost_spans(&self) -> u64
        ensures { result ≡ (stored self.now).lost_spans };

    /// What a taking does beside that.
    ghost take_gives: { Self → Self → Type 0 };

    /// Hands out the batches that are kept. What it tells stays.
    fn take_batches(&mut self, alloc: Global) -> Vec<Vec<SpanData>>
        ensures taken { map (λ batch. batch.items) result.items ≡ (stored self.old).batches }
        ensures takes { TakesBatches Self.SpanProcessor Self.CountsLeftSpans.own stored self.old self.new }
        ensures gives { take_gives self.old self.new };

    /// None of its calls takes back a batch, and a start of a span stores and loses none.
    ghost appends: { OnlyAppends Self.SpanProcessor Self.Timed.own stored };
}
