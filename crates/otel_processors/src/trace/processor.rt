//! A processor of a provider: one that exports at once, one that exports batches, or an object of the caller's own.

use crate::trace::BatchSpanProcessor;
use opentelemetry::{Context, Moment};
use otel_batch::trace::BatchConfigBuilder;
use otel_export::error::OTelSdkResult;
use otel_export::trace::{ExporterBox, SpanData, SpanExporter, StoresBatches};
use otel_pipeline::trace::{
    CountsLeftSpans, FromExporter, KeepsBatches, SimpleSpanProcessor, Span, SpanBlock,
    SpanProcessor, Timed,
};
use otel_resource::resource::Resource;
use otel_sampling::trace::BatchStrings;
use std::alloc::{AllocError, Global};
use std::time::Duration;

/// A processor of one of three kinds, generic in the exporter of the first two and in the third.
#[derive(Drop)]
pub enum ProcessorOf<E, C> {
    Simple(SimpleSpanProcessor<E>),
    Batch(BatchSpanProcessor<E>),
    Custom(C),
}

/// What a provider of the SDK holds.
pub type Processor = ProcessorOf<ExporterBox, Box<dyn SpanProcessor>>;

impl<E: SpanExporter, C: SpanProcessor> SpanProcessor for ProcessorOf<E, C> {
    ghost use Rattle.std.specs.Prelude.{◌≡◌, Ok};
    ghost use Rattle.otel_batch.specs.declared.machine.state.Request.TheVariants as request;
    ghost use Rattle.otel_pipeline.specs.SimpleProcessor.{HandsResource, SimpleEnds, SimpleShuts};
    ghost use Rattle.otel_processors.specs.BatchProcessor.{BatchEnds, BatchRequests, BatchTakesResource};
    ghost use Rattle.otel_processors.specs.ProcessorKinds.{ProcessorGives, telling_by_kind};

    ghost told = { telling_by_kind E.SpanExporter C.told };

    ghost start_gives = { λ p span cx edited q. ProcessorGives (λ a b. (b ≡ a) × (edited ≡ span))
        (λ a b. (b ≡ a) × (edited ≡ span)) (λ a b. C.start_gives a span cx edited b) p q };

    ghost end_gives = { λ p span r q. ProcessorGives (λ a b. SimpleEnds E.SpanExporter a span r b)
        (λ a b. BatchEnds E.SpanExporter a span r b) (λ a b. C.end_gives a span r b) p q };

    ghost flush_gives = { λ p r q. ProcessorGives (λ a b. (r ≡ Ok tt) × (b ≡ a))
        (λ a b. BatchRequests E.SpanExporter request.Flush a r b) (λ a b. C.flush_gives a r b) p q };

    ghost shutdown_gives = { λ p timeout r q. ProcessorGives (λ a b. SimpleShuts E.SpanExporter a timeout r b)
        (λ a b. BatchRequests E.SpanExporter request.Shutdown a r b) (λ a b. C.shutdown_gives a timeout r b) p q };

    ghost resource_gives = { λ p resource r q. ProcessorGives
        (λ a b. HandsResource E.SpanExporter a resource r b)
        (λ a b. BatchTakesResource E.SpanExporter a resource r b)
        (λ a b. C.resource_gives a resource r b) p q };

    fn on_start(&mut self, span: &mut Span, cx: &Context) {
        match self {
            ProcessorOf::Simple(simple) => simple.on_start(span, cx),
            ProcessorOf::Batch(batch) => batch.on_start(span, cx),
            ProcessorOf::Custom(custom) => custom.on_start(span, cx),
        }
    }

    #[inline(always)]
    fn on_end(&mut self, span: SpanData) -> Result<(), AllocError> {
        match self {
            ProcessorOf::Simple(simple) => simple.on_end(span),
            ProcessorOf::Batch(batch) => batch.on_end(span),
            ProcessorOf::Custom(custom) => custom.on_end(span),
        }
    }

    #[inline(always)]
    fn on_end_block(&mut self, span: SpanBlock) -> Result<(), AllocError> {
        match self {
            ProcessorOf::Simple(simple) => simple.on_end_block(span),
            ProcessorOf::Batch(batch) => batch.on_end_block(span),
            ProcessorOf::Custom(custom) => custom.on_end_block(span),
        }
    }

    #[inline(always)]
    fn take_emptied(&mut self) -> Option<Vec<SpanData>> {
        match self {
            ProcessorOf::Simple(simple) => simple.take_emptied(),
            ProcessorOf::Batch(batch) => batch.take_emptied(),
            ProcessorOf::Custom(custom) => custom.take_emptied(),
        }
    }

    fn force_flush(&mut self) -> OTelSdkResult {
        match self {
            ProcessorOf::Simple(simple) => simple.force_flush(),
            ProcessorOf::Batch(batch) => batch.force_flush(),
            ProcessorOf::Custom(custom) => custom.force_flush(),
        }
    }

    fn shutdown_with_timeout(&mut self, timeout: Duration) -> OTelSdkResult {
        match self {
            ProcessorOf::Simple(simple) => simple.shutdown_with_timeout(timeout),
            ProcessorOf::Batch(batch) => batch.shutdown_with_timeout(timeout),
            ProcessorOf::Custom(custom) => custom.shutdown_with_timeout(timeout),
        }
    }

    fn shutdown(&mut self) -> OTelSdkResult {
        match self {
            ProcessorOf::Simple(simple) => simple.shutdown(),
            ProcessorOf::Batch(batch) => batch.shutdown(),
            ProcessorOf::Custom(custom) => custom.shutdown(),
        }
    }

    fn set_resource(&mut self, resource: &Resource) -> Result<(), AllocError> {
        match self {
            ProcessorOf::Simple(simple) => simple.set_resource(resource),
            ProcessorOf::Batch(batch) => batch.set_resource(resource),
            ProcessorOf::Custom(custom) => custom.set_resource(resource),
        }
    }
}

impl<E: SpanExporter, C: SpanProcessor> Timed for ProcessorOf<E, C> {
    ghost use Rattle.otel_processors.specs.BatchProcessor.{BatchDue};
    ghost use Rattle.otel_processors.specs.ProcessorKinds.{NothingDue, ProcessorGives};

    ghost due_gives = { λ p now r q. ProcessorGives (λ a b. NothingDue a r b)
        (λ a b. BatchDue E.SpanExporter a now r b) (λ a b. NothingDue a r b) p q };

    /// Nothing is due but for a batch processor.
    fn drain_due(&mut self, now: Moment) -> OTelSdkResult {
        match self {
            ProcessorOf::Simple(_) => Ok(()),
            ProcessorOf::Batch(batch) => batch.drain_due(now),
            ProcessorOf::Custom(_) => Ok(()),
        }
    }
}

/// Nothing is asked of a processor of the caller's own: it counts as one that leaves and drops none and whose exports do
/// not fail.
impl<E: SpanExporter, C: SpanProcessor> CountsLeftSpans for ProcessorOf<E, C> {
    ghost use Rattle.std.specs.Prelude.{None};
    ghost use Rattle.otel_batch.specs.MachineState.{stranded_in};
    ghost use Rattle.otel_processors.specs.ProcessorKinds.{closed_over_by_kind, dropped_over_by_kind};
    ghost use Rattle.otel_processors.specs.ProcessorKinds.{failed_over_by_kind, leaves_told_by_kind, open_over_by_kind};
    ghost use Rattle.otel_processors.specs.ProcessorKinds.{tells_dropped_by_kind, tells_left_by_kind};
    ghost use Rattle.otel_processors.specs.declared.trace.processor.ProcessorOf.TheVariants as kinds;

    ghost closed_over = { closed_over_by_kind };

    ghost open_over = { open_over_by_kind };

    ghost leaves_told = { leaves_told_by_kind };

    ghost tells_left = { tells_left_by_kind E.SpanExporter C.told };

    ghost dropped_over = { dropped_over_by_kind };

    ghost failed_over = { failed_over_by_kind };

    ghost tells_dropped = { tells_dropped_by_kind E.SpanExporter C.told };

    /// Only a batch processor has a queue.
    fn stranded(&self) -> Option<usize> {
        match self {
            ProcessorOf::Simple(_) => None,
            ProcessorOf::Batch(batch) => batch.stranded(),
            ProcessorOf::Custom(_) => None,
        }
    }

    fn left_open(&self) -> usize {
        match self {
            ProcessorOf::Simple(_) => 0,
            ProcessorOf::Batch(batch) => batch.left_open(),
            ProcessorOf::Custom(_) => 0,
        }
    }

    fn dropped_count(&self) -> u64 {
        match self {
            ProcessorOf::Simple(_) => 0,
            ProcessorOf::Batch(batch) => batch.dropped_count(),
            ProcessorOf::Custom(_) => 0,
        }
    }

    fn failed_exports(&self) -> u64 {
        match self {
            ProcessorOf::Simple(simple) => simple.failed_exports(),
            ProcessorOf::Batch(batch) => batch.failed_exports(),
            ProcessorOf::Custom(_) => 0,
        }
    }
}

impl<E: StoresBatches, C: SpanProcessor> KeepsBatches for ProcessorOf<E, C> {
    ghost use Rattle.otel_pipeline.specs.ProcessorKeeps.{simple_appends, simple_rests, simple_stays};
    ghost use Rattle.otel_processors.specs.KeptByBatch.{batch_stays, due_appends, ends_appends, requests_appends};
    ghost use Rattle.otel_processors.specs.KeptByKinds.{processor_appends, processor_stays, processor_stored};
    ghost use Rattle.otel_processors.specs.ProcessorKinds.{ProcessorTakes};
    ghost use Rattle.otel_batch.specs.declared.machine.state.Request.TheVariants as request;

    ghost stored = { processor_stored E.stored };

    ghost take_gives = { ProcessorTakes E.take_gives };

    ghost appends = { record {
      starts = λ p span cx edited q. processor_stays E.stored _ _ _
          (λ a b h. simple_stays E.stored a b h)
          (λ a b h. batch_stays E.SpanExporter E.stored E.appends a b h) p q;
      ends = λ p span answer q. processor_appends E.stored _ _ _
          (λ a b h. simple_appends E.stored E.SpanExporter E.appends.exports a span answer b h)
          (λ a b h. ends_appends E.SpanExporter E.stored E.appends a span answer b h) p q;
      flushes = λ p answer q. processor_appends E.stored _ _ _ (λ a b h. simple_rests E.stored a b h.1)
          (λ a b h. requests_appends E.SpanExporter E.stored E.appends request.Flush a.machine answer b.machine
          h.requests) p q;
      shuts = λ p timeout answer q. processor_appends E.stored _ _ _
          (λ a b h. E.appends.shuts a.exporter timeout answer b.exporter h.gives)
          (λ a b h. requests_appends E.SpanExporter E.stored E.appends request.Shutdown a.machine answer b.machine
          h.requests) p q;
      runs = λ p now answer q. processor_appends E.stored _ _ _ (λ a b h. simple_rests E.stored a b h.rest)
          (λ a b h. due_appends E.SpanExporter E.stored E.appends a now answer b h) p q;
    } };

    fn batches(&self) -> &[Vec<SpanData>] {
        match self {
            ProcessorOf::Simple(simple) => simple.exporter().batches(),
            ProcessorOf::Batch(batch) => batch.exporter().batches(),
            ProcessorOf::Custom(_) => &[],
        }
    }

    fn lost_batches(&self) -> u64 {
        match self {
            ProcessorOf::Simple(simple) => simple.exporter().lost_batches(),
            ProcessorOf::Batch(batch) => batch.exporter().lost_batches(),
            ProcessorOf::Custom(_) => 0,
        }
    }

    fn lost_spans(&self) -> u64 {
        match self {
            ProcessorOf::Simple(simple) => simple.exporter().lost_spans(),
            ProcessorOf::Batch(batch) => batch.exporter().lost_spans(),
            ProcessorOf::Custom(_) => 0,
        }
    }

    /// One of the caller's own keeps none.
    fn take_batches(&mut self, alloc: Global) -> Vec<Vec<SpanData>> {
        match self {
            ProcessorOf::Simple(simple) => simple.take_batches(),
            ProcessorOf::Batch(batch) => batch.take_batches(),
            ProcessorOf::Custom(_) => Vec::new(alloc),
        }
    }
}

impl<E: SpanExporter, C: SpanProcessor> FromExporter for ProcessorOf<E, C> {
    ghost use Rattle.std.specs.Prelude.{◌≡◌};
    ghost use Rattle.otel_batch.specs.PlainBatchConfig.{PlainBatchConfig, IsBatchConfigOf};
    ghost use Rattle.otel_pipeline.specs.SimpleProcessor.{first_simple};
    ghost use Rattle.otel_processors.specs.BatchProcessor.{eager_processor, first_processor};
    ghost use Rattle.otel_processors.specs.declared.trace.processor.ProcessorOf.TheVariants as kinds;

    type Exporter = E;

    ghost simple_of = { λ exporter. kinds.Simple (first_simple exporter) };

    ghost batch_of = { λ exporter strings made. (config : PlainBatchConfig) × IsBatchConfigOf strings config
        × (made ≡ kinds.Batch (first_processor exporter config)) };

    ghost eager_batch_of = { λ exporter strings made. (config : PlainBatchConfig) × IsBatchConfigOf strings config
        × (made ≡ kinds.Batch (eager_processor exporter config)) };

    fn simple(alloc: Global, exporter: E) -> Self {
        ProcessorOf::Simple(SimpleSpanProcessor::new(alloc, exporter))
    }

    fn batch(alloc: Global, exporter: E, strings: &BatchStrings) -> Result<Self, AllocError> {
        let config = BatchConfigBuilder::from_strings(strings).build();
        let batch = BatchSpanProcessor::new(alloc, exporter, config)?;
        Ok(ProcessorOf::Batch(batch))
    }

    fn eager_batch(alloc: Global, exporter: E, strings: &BatchStrings) -> Result<Self, AllocError> {
        let config = BatchConfigBuilder::from_strings(strings).build();
        let batch = BatchSpanProcessor::new_eager(alloc, exporter, config)?;
        Ok(ProcessorOf::Batch(batch))
    }
}
