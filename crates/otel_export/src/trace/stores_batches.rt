//! The batches that an exporter keeps, which a caller can read and take.

ghost use Rattle.std.specs.Prelude.{◌≡◌, map};
ghost use Rattle.otel_export.specs.KeptBatches.{ExporterAppends};
ghost use Rattle.otel_export.specs.StoredBatches.{StoredBatches, all_taken};

use crate::trace::{ExporterOf, InMemorySpanExporter, SpanData, SpanExporter};
use std::alloc::Global;

/// An exporter that may keep its batches until they are taken. None of its calls takes back a batch.
pub trait StoresBatches: SpanExporter {
    /// The batches that are kept, those that were taken, and how many were lost, with how many spans; none of each where
    /// it keeps none.
    ghost stored: { Self → StoredBatches };

    /// The batches that are kept, the oldest first.
    fn batches(&self) -> &[Vec<SpanData>]
        ensures { map (λ batch. batch.items) result.now ≡ (stored self.now).batches };

    /// How many batches were handed to it and found no memory or no room.
    fn lost_batches(&self) -> u64
        ensures { result ≡ (stored self.now).lost };

    /// How many spans these had.
    fn lost_spans(&self) -> u64
        ensures { result ≡ (stored self.now).lost_spans };

    /// What a taking does beside that.
    ghost take_gives: { Self → Self → Type 0 };

    /// Hands out the batches that are kept. It goes on telling them.
    fn take_batches(&mut self, alloc: Global) -> Vec<Vec<SpanData>>
        ensures taken { map (λ batch. batch.items) result.items ≡ (stored self.old).batches }
        ensures stored { stored self.new ≡ all_taken (stored self.old) }
        ensures told { Self.SpanExporter.told self.new ≡ Self.SpanExporter.told self.old }
        ensures gives { take_gives self.old self.new };

    ghost appends: { ExporterAppends Self.SpanExporter stored };
}

impl<C: SpanExporter> StoresBatches for ExporterOf<InMemorySpanExporter, C> {
    ghost use Rattle.otel_export.specs.ExporterKinds.{ExporterGives};
    ghost use Rattle.otel_export.specs.KeptBatches.{adds_none, either_adds, exporter_stored, memory_adds};
    ghost use Rattle.otel_export.specs.StoredBatches.{all_taken};

    ghost stored = { exporter_stored };

    ghost take_gives = { ExporterGives (λ m n. n ≡ all_taken m) (λ c d. d ≡ c) };

    ghost appends = { record {
      exports = λ old batch answer new. either_adds _ _ (memory_adds batch answer) old new;
      shuts = λ old timeout answer new. either_adds _ _ (λ m n h. adds_none m n h.1) old new;
      passes = λ old resource new. either_adds _ _ (λ m n h. adds_none m n h) old new;
    } };

    fn batches(&self) -> &[Vec<SpanData>] {
        match self {
            ExporterOf::Memory(memory) => memory.batches(),
            ExporterOf::Custom(_) => &[],
        }
    }

    fn lost_batches(&self) -> u64 {
        match self {
            ExporterOf::Memory(memory) => memory.lost_batches(),
            ExporterOf::Custom(_) => 0,
        }
    }

    fn lost_spans(&self) -> u64 {
        match self {
            ExporterOf::Memory(memory) => memory.lost_spans(),
            ExporterOf::Custom(_) => 0,
        }
    }

    /// One of the caller's own keeps none.
    fn take_batches(&mut self, alloc: Global) -> Vec<Vec<SpanData>> {
        match self {
            ExporterOf::Memory(memory) => memory.take_batches(),
            ExporterOf::Custom(_) => Vec::new(alloc),
        }
    }
}
