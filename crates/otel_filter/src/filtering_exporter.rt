//! An exporter in front of another one, which is handed only the spans that a filter keeps.
//!
//! It tells the batches that it was handed, as long as the exporter inside tells. So long that one tells what is kept of
//! them, after what it told at first. `laws.rt` says what exports in turn hand on.

ghost use Rattle.std.specs.Prelude.{◌≡◌, [], ◌∷◌, filter};
ghost use Rattle.otel_filter.specs.Filtering.{HandsOn};

use crate::span_filter::SpanFilter;
use otel_export::error::OTelSdkResult;
use otel_export::history::History;
use otel_export::trace::{SpanData, SpanExporter, StoresBatches};
use otel_resource::resource::Resource;
use std::alloc::Global;
use std::marker::Model;
use std::time::Duration;

/// Passes on the spans of each batch that its filter keeps, as one batch and in their order. A batch of which nothing
/// is kept is not passed on, and answered by Ok. It takes no memory of its own.
#[derive(Drop)]
pub struct FilteringExporter<E: SpanExporter, F: SpanFilter> {
    // The exporter inside as it was at first.
    begun: History<E>,
    exporter: E,
    filter: F,
    handed: History<Vec<SpanData>>,
}

impl<E: SpanExporter, F: SpanFilter> Model for FilteringExporter<E, F> {
    ghost use Rattle.std.specs.Prelude.{map};
    ghost use Rattle.otel_filter.specs.Filtering.{FilterState, HandsOn};

    ghost Value = { FilterState E F };

    ghost view = { λ e. record {
      begun = e.begun.items;
      exporter = e.exporter;
      filter = e.filter;
      handed = map (λ batch. batch.items) e.handed.items;
    } };

    ghost invariant = { λ e. HandsOn E.SpanExporter F.keeps (record {
      begun = e.begun.items;
      exporter = e.exporter;
      filter = e.filter;
      handed = map (λ batch. batch.items) e.handed.items;
    }) };
}

impl<E: SpanExporter, F: SpanFilter> FilteringExporter<E, F> {
    /// Nothing was handed to it yet.
    pub fn new(exporter: E, filter: F) -> FilteringExporter<E, F>
        ensures { result ≡ record { begun = exporter ∷ []; exporter = exporter; filter = filter; handed = [] } }
    {
        let mut begun = History::new();
        begun.push(&exporter);
        FilteringExporter {
            begun,
            exporter,
            filter,
            handed: History::new(),
        }
    }

    /// The exporter inside. While it tells, it tells what the filter keeps of the batches handed to this one, after what
    /// it told at first.
    pub fn exporter(&self) -> &E
        ensures is { result.now ≡ self.now.exporter }
        ensures hands_on { HandsOn E.SpanExporter F.keeps self.now }
    {
        &self.exporter
    }

    /// The filter.
    pub fn filter(&self) -> &F
        ensures { result.now ≡ self.now.filter }
    {
        &self.filter
    }
}

/// Leaves the spans that a filter keeps.
fn retain_kept<F: SpanFilter>(by: &F, batch: &mut Vec<SpanData>)
    ensures { batch.new.items ≡ filter (F.keeps by.now) batch.old.items }
{
    batch.retain(|span| by.keeps(span));
}

impl<E: SpanExporter, F: SpanFilter> SpanExporter for FilteringExporter<E, F> {
    ghost use Rattle.otel_export.specs.RestsOr.{RestsOr};
    ghost use Rattle.otel_filter.specs.Filtering.{ExportsKept, ReachesInside, told_by};

    ghost told = { told_by E.SpanExporter };

    ghost export_gives = { ExportsKept E.SpanExporter F.keeps };

    ghost shutdown_gives = { λ old timeout answer new. ReachesInside E.SpanExporter
        (λ e f. E.shutdown_gives e timeout answer f) old new };

    ghost flush_gives = { λ old answer new. ReachesInside E.SpanExporter
        (λ e f. RestsOr E.flush_gives e answer f) old new };

    ghost resource_gives = { λ old resource new. ReachesInside E.SpanExporter
        (λ e f. E.resource_gives e resource f) old new };

    fn export(&mut self, batch: Vec<SpanData>) -> OTelSdkResult {
        self.handed.push(&batch);
        let mut kept = batch;
        retain_kept(&self.filter, &mut kept);
        if kept.is_empty() {
            return Ok(());
        }
        self.exporter.export(kept)
    }

    fn export_from(&mut self, batch: &mut Vec<SpanData>) -> OTelSdkResult {
        self.handed.push(batch);
        retain_kept(&self.filter, batch);
        if batch.is_empty() {
            return Ok(());
        }
        self.exporter.export_from(batch)
    }

    fn shutdown_with_timeout(&mut self, timeout: Duration) -> OTelSdkResult {
        self.exporter.shutdown_with_timeout(timeout)
    }

    fn shutdown(&mut self) -> OTelSdkResult {
        self.exporter.shutdown()
    }

    fn force_flush(&mut self) -> OTelSdkResult {
        self.exporter.force_flush()
    }

    fn set_resource(&mut self, resource: &Resource) {
        self.exporter.set_resource(resource);
    }
}

impl<E: StoresBatches, F: SpanFilter> StoresBatches for FilteringExporter<E, F> {
    ghost use Rattle.std.specs.Prelude.{◌≡◌};
    ghost use Rattle.otel_filter.specs.FilteredStore.{kept_adds};

    ghost stored = { λ e. E.stored e.exporter };

    ghost take_gives = { λ e f. E.take_gives e.exporter f.exporter × (f ≡ record e { exporter = f.exporter }) };

    ghost appends = { record {
      exports = λ old batch answer new given. kept_adds E.appends F.keeps old batch answer new given;
      shuts = λ old timeout answer new given.
          E.appends.shuts old.exporter timeout answer new.exporter given.given;
      passes = λ old resource new given. E.appends.passes old.exporter resource new.exporter given.given;
    } };

    fn batches(&self) -> &[Vec<SpanData>] {
        self.exporter.batches()
    }

    fn lost_batches(&self) -> u64 {
        self.exporter.lost_batches()
    }

    fn lost_spans(&self) -> u64 {
        self.exporter.lost_spans()
    }

    fn take_batches(&mut self, alloc: Global) -> Vec<Vec<SpanData>> {
        self.exporter.take_batches(alloc)
    }
}
