//! The batches that the exporter of a batch queue keeps, which a caller may take.

ghost use Rattle.std.specs.Prelude.{◌≡◌, map};
ghost use Rattle.otel_export.specs.StoredBatches.{all_taken};

use crate::machine::BatchMachine;
use otel_export::trace::{SpanData, StoresBatches};

impl<E: StoresBatches> BatchMachine<E> {
    /// Hands out the batches that the exporter keeps. All else is as it was.
    pub fn take_batches(&mut self) -> Vec<Vec<SpanData>>
        ensures taken { map (λ batch. batch.items) result.items ≡ (E.stored self.old.exporter).batches }
        ensures rest { self.new ≡ record self.old { exporter = self.new.exporter } }
        ensures stored { E.stored self.new.exporter ≡ all_taken (E.stored self.old.exporter) }
        ensures told { E.SpanExporter.told self.new.exporter ≡ E.SpanExporter.told self.old.exporter }
        ensures gives { E.take_gives self.old.exporter self.new.exporter }
    {
        self.exporter.take_batches(self.alloc)
    }
}
