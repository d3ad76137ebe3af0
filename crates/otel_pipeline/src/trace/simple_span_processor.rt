//! The processor that exports each sampled span as soon as it ends, in a batch of its own (OpenTelemetry specification,
//! "Simple processor").

ghost use Rattle.std.specs.Prelude.{◌≡◌};
ghost use Rattle.otel_pipeline.specs.SimpleProcessor.{first_simple};

use crate::trace::{CountsLeftSpans, EmptiedBlock, Span, SpanBlock, SpanProcessor};
use opentelemetry::Context;
use otel_export::error::OTelSdkResult;
use otel_export::trace::{SpanData, SpanExporter, StoresBatches};
use otel_resource::resource::Resource;
use std::alloc::{AllocError, Global};
use std::marker::Model;
use std::time::Duration;

/// Hands each sampled span to its exporter at once, until it is shut down.
#[derive(Drop)]
pub struct SimpleSpanProcessor<E> {
    exporter: E,
    is_shut: bool,
    // It stops at the greatest number.
    failed_exports: u64,
    // The block of the span before, where the exporter left it.
    emptied: EmptiedBlock,
    alloc: Global,
}

impl<E> Model for SimpleSpanProcessor<E> {
    ghost use Rattle.otel_pipeline.specs.SimpleProcessor.{SimpleProcessor};

    ghost Value = { SimpleProcessor E };

    ghost view = { λ a. record {
      exporter = a.exporter;
      is_shut = a.is_shut;
      failed_exports = a.failed_exports;
    } };
}

impl<E> SimpleSpanProcessor<E> {
    /// A processor that hands each sampled span to this exporter as the span ends.
    pub fn new(alloc: Global, exporter: E) -> SimpleSpanProcessor<E>
        ensures { result ≡ first_simple exporter }
    {
        SimpleSpanProcessor {
            exporter,
            is_shut: false,
            failed_exports: 0,
            emptied: EmptiedBlock::none(),
            alloc,
        }
    }

    /// The exporter, to read what it has kept.
    pub fn exporter(&self) -> &E
        ensures { result.now ≡ self.now.exporter }
    {
        &self.exporter
    }

    /// How many exports the exporter answered with an error, which no end of a span tells. It stops at the greatest
    /// `u64`.
    pub fn failed_exports(&self) -> u64
        ensures { result ≡ self.now.failed_exports }
    {
        self.failed_exports
    }
}

impl<E: StoresBatches> SimpleSpanProcessor<E> {
    ghost use Rattle.std.specs.Prelude.{map};
    ghost use Rattle.otel_export.specs.StoredBatches.{all_taken};

    /// Hands out the batches that the exporter keeps. All else is as it was.
    pub fn take_batches(&mut self) -> Vec<Vec<SpanData>>
        ensures taken { map (λ batch. batch.items) result.items ≡ (E.stored self.old.exporter).batches }
        ensures rest { self.new ≡ record self.old { exporter = self.new.exporter } }
        ensures stored { E.stored self.new.exporter ≡ all_taken (E.stored self.old.exporter) }
        ensures told { E.SpanExporter.told self.new.exporter ≡ E.SpanExporter.told self.old.exporter }
        ensures gives { E.take_gives self.old.exporter self.new.exporter }
    {
        self.exporter.take_batches(self.alloc)
    }
}

impl<E: SpanExporter> SpanProcessor for SimpleSpanProcessor<E> {
    ghost use Rattle.std.specs.Prelude.{◌≡◌, Ok};
    ghost use Rattle.otel_pipeline.specs.SimpleProcessor.{HandsResource, SimpleEnds, SimpleShuts, simple_telling};

    ghost told = { simple_telling E.SpanExporter };

    ghost start_gives = { λ p s cx t q. (q ≡ p) × (t ≡ s) };

    ghost end_gives = { SimpleEnds E.SpanExporter };

    ghost flush_gives = { λ p r q. (r ≡ Ok tt) × (q ≡ p) };

    ghost shutdown_gives = { SimpleShuts E.SpanExporter };

    ghost resource_gives = { HandsResource E.SpanExporter };

    fn on_start(&mut self, _span: &mut Span, _cx: &Context) {}

    fn on_end(&mut self, span: SpanData) -> Result<(), AllocError> {
        if self.is_shut || !span.span_context.is_sampled() {
            return Ok(());
        }
        self.on_end_block(SpanBlock::new(self.alloc, span)?)
    }

    /// It takes no memory.
    #[inline(always)]
    fn on_end_block(&mut self, span: SpanBlock) -> Result<(), AllocError> {
        if self.is_shut || !span.data().span_context.is_sampled() {
            return Ok(());
        }
        let mut batch = span.into_batch();
        if self.exporter.export_from(&mut batch).is_err() {
            self.failed_exports = self.failed_exports.saturating_add(1);
        }
        self.emptied.keep(batch);
        Ok(())
    }

    #[inline(always)]
    fn take_emptied(&mut self) -> Option<Vec<SpanData>> {
        self.emptied.take()
    }

    fn force_flush(&mut self) -> OTelSdkResult {
        Ok(())
    }

    fn shutdown_with_timeout(&mut self, timeout: Duration) -> OTelSdkResult {
        self.is_shut = true;
        self.exporter.shutdown_with_timeout(timeout)
    }

    fn set_resource(&mut self, resource: &Resource) -> Result<(), AllocError> {
        self.exporter.set_resource(resource);
        Ok(())
    }
}

impl<E: SpanExporter> CountsLeftSpans for SimpleSpanProcessor<E> {
    ghost use Rattle.std.specs.Prelude.{true, not, refl};
    ghost use Rattle.otel_pipeline.specs.LeftSpans.{none_left};

    ghost failed_over = { λ p. p.failed_exports };

    ghost leaves_told = { λ _. true };

    ghost tells_left = { λ p. none_left (not p.is_shut) };

    ghost tells_dropped = { λ _. refl };

    /// It has no queue.
    fn stranded(&self) -> Option<usize> {
        None
    }

    fn left_open(&self) -> usize {
        0
    }

    fn dropped_count(&self) -> u64 {
        0
    }

    fn failed_exports(&self) -> u64 {
        self.failed_exports
    }
}
