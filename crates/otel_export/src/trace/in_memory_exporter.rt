//! The exporter that keeps its batches: for tests, for examples, and for the program that prints what was exported.

ghost use Rattle.std.specs.Prelude.{◌≡◌, ◌≤◌, ◌+◌, [], Err, IfSome, Some, length, map};
ghost use Rattle.std.specs.Option.{option_map};
ghost use Rattle.otel_export.specs.StoredBatches.{all_taken, counted_up, none_stored, one_more, spans_kept};

use crate::error::{OTelSdkError, OTelSdkResult};
use crate::history::History;
use crate::trace::{SpanData, SpanExporter};
use otel_resource::resource::Resource;
use std::alloc::Global;
use std::marker::Model;
use std::mem;
use std::time::Duration;

/// Keeps each batch that it was handed, in order, until it is taken. It tells those that were taken too, until one found
/// no memory or no room.
#[derive(Debug, Drop)]
pub struct InMemorySpanExporter {
    batches: Vec<Vec<SpanData>>,
    taken: History<Vec<SpanData>>,
    kept_spans: u64,
    max_spans: u64,
    lost_batches: u64,
    lost_spans: u64,
    alloc: Global,
}

impl Model for InMemorySpanExporter {
    ghost use Rattle.std.specs.Prelude.{◌≡◌, ◌≤◌, length, map, sum_by};
    ghost use Rattle.otel_export.specs.StoredBatches.{StoredBatches};

    ghost Value = { StoredBatches };

    ghost view = { λ a. record {
      taken = map (λ batch. batch.items) a.taken.items;
      batches = map (λ batch. batch.items) a.batches.items;
      lost = a.lost_batches;
      lost_spans = a.lost_spans;
      max_spans = a.max_spans;
    } };

    // It counts the spans that it keeps, and keeps no more than it may.
    ghost invariant = { λ a. (a.kept_spans ≡ sum_by length (map (λ batch. batch.items) a.batches.items))
        × (a.kept_spans ≤ a.max_spans) };
}

impl InMemorySpanExporter {
    /// An exporter that has kept nothing yet.
    pub fn new(alloc: Global) -> InMemorySpanExporter
        ensures kept { result ≡ none_stored }
        ensures told { ⟦<InMemorySpanExporter as SpanExporter>⟧.told result ≡ Some [] }
    {
        InMemorySpanExporter {
            batches: Vec::new(alloc),
            taken: History::new(),
            kept_spans: 0,
            max_spans: u64::MAX,
            lost_batches: 0,
            lost_spans: 0,
            alloc,
        }
    }

    /// An exporter that keeps so many spans at most. A batch for which there is no room then is lost, as one without
    /// memory is.
    pub fn with_max_spans(alloc: Global, max_spans: u64) -> InMemorySpanExporter
        ensures kept { result ≡ record none_stored { max_spans = max_spans } }
        ensures told { ⟦<InMemorySpanExporter as SpanExporter>⟧.told result ≡ Some [] }
    {
        let mut exporter = InMemorySpanExporter::new(alloc);
        exporter.max_spans = max_spans;
        exporter
    }

    /// The batches that were not taken, the oldest first.
    pub fn batches(&self) -> &[Vec<SpanData>]
        ensures { map (λ batch. batch.items) result.now ≡ self.now.batches }
    {
        &self.batches
    }

    /// Hands these batches out. It goes on telling them.
    pub fn take_batches(&mut self) -> Vec<Vec<SpanData>>
        ensures taken { map (λ batch. batch.items) result.items ≡ self.old.batches }
        ensures rest { self.new ≡ all_taken self.old }
    {
        self.taken.extend(&self.batches);
        self.kept_spans = 0;
        mem::replace(&mut self.batches, Vec::new(self.alloc))
    }

    /// Forgets the batches. What it tells begins anew, unless the telling has ended.
    pub fn reset(&mut self)
        ensures kept { self.new ≡ record self.old { taken = []; batches = [] } }
        ensures told { ⟦<InMemorySpanExporter as SpanExporter>⟧.told self.new
            ≡ option_map (λ _. []) (⟦<InMemorySpanExporter as SpanExporter>⟧.told self.old) }
    {
        self.taken = History::new();
        self.batches.clear();
        self.kept_spans = 0;
    }

    /// How many spans are in the batches that it keeps: never more than it may keep.
    pub fn kept_spans(&self) -> u64
        ensures counts { result ≡ spans_kept self.now }
        ensures bounded { result ≤ self.now.max_spans }
    {
        self.kept_spans
    }

    /// How many batches were handed over and are not kept, since there was no memory or no room for them. It stops at
    /// the greatest `u64`.
    pub fn lost_batches(&self) -> u64
        ensures { result ≡ self.now.lost }
    {
        self.lost_batches
    }

    /// How many spans these batches had.
    pub fn lost_spans(&self) -> u64
        ensures { result ≡ self.now.lost_spans }
    {
        self.lost_spans
    }

    /// How many spans it keeps after one more batch, where it may keep so many.
    fn kept_with(&self, batch: &[SpanData]) -> Option<u64>
        ensures { IfSome result (λ kept. (kept ≡ spans_kept self.now + length batch.now) × (kept ≤ self.now.max_spans)) }
    {
        let kept = self.kept_spans.checked_add(batch.len() as u64)?;
        if kept <= self.max_spans {
            Some(kept)
        } else {
            None
        }
    }

    /// Counts a batch of so many spans that is not kept.
    fn lose(&mut self, spans: u64) -> OTelSdkResult
        ensures err { result ≡ Err OTelSdkError.OutOfMemory }
        ensures counts { self.new ≡ record self.old
            { lost = one_more self.old.lost; lost_spans = counted_up self.old.lost_spans spans } }
    {
        self.lost_batches = self.lost_batches.saturating_add(1);
        self.lost_spans = self.lost_spans.saturating_add(spans);
        Err(OTelSdkError::OutOfMemory)
    }
}

impl SpanExporter for InMemorySpanExporter {
    ghost use Rattle.std.specs.Prelude.{◌≡◌, Ok};
    ghost use Rattle.otel_export.specs.StoredBatches.{StoresBatch, stored_told};

    ghost told = { stored_told };

    ghost export_gives = { StoresBatch };

    ghost shutdown_gives = { λ m _ r n. (r ≡ Ok tt) × (n ≡ m) };

    ghost flush_gives = { λ m r n. (r ≡ Ok tt) × (n ≡ m) };

    ghost resource_gives = { λ m _ n. n ≡ m };

    fn export(&mut self, batch: Vec<SpanData>) -> OTelSdkResult {
        let spans = batch.len() as u64;
        let Some(kept_spans) = self.kept_with(&batch) else {
            return self.lose(spans);
        };
        match self.batches.push(batch) {
            Ok(()) => {
                self.kept_spans = kept_spans;
                Ok(())
            }
            Err(_) => self.lose(spans),
        }
    }

    /// It goes on taking batches, which can be read after a shutdown too.
    fn shutdown_with_timeout(&mut self, _timeout: Duration) -> OTelSdkResult {
        Ok(())
    }

    /// It keeps no resource.
    fn set_resource(&mut self, _resource: &Resource) {}
}
