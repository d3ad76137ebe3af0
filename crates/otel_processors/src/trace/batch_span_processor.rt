//! The processor that exports sampled spans in batches (OpenTelemetry specification, "Batching processor"). A span waits
//! in a queue of bounded length; whoever holds the processor has its worker hand batches to the exporter, by
//! `force_flush`, `run_worker`, or `drain_due` with the time. There is no thread and no clock: where nobody calls one of
//! them in time, spans that find the queue full are dropped. An eager processor exports a full batch where the span ends
//! that fills it, and is the one for a service that calls none of them; but there the last spans, fewer than a batch has,
//! up to 511 by default, wait for ever.

ghost use Rattle.std.specs.Prelude.{◌≡◌, ◌+◌, false, IfOk, IfSome, nat_le};
ghost use Rattle.std.specs.Duration.{as_nanos};
ghost use Rattle.otel_pipeline.specs.ProcessorTelling.{TakesNothing};
ghost use Rattle.otel_batch.specs.SoundMachine.{IsSound};
ghost use Rattle.otel_batch.specs.MachineState.{counts, stranded_in};
ghost use Rattle.otel_batch.specs.PlainBatchConfig.{default_batch_config};
ghost use Rattle.otel_processors.specs.BatchProcessor.{batch_open_over, batch_telling, ends_eagerly};
ghost use Rattle.otel_processors.specs.QueueRequests.{IsAtRest};

use crate::trace::batch_worker::{
    drain_by_tick, make_request, offer_eagerly, offer_span, post_resource, run_worker,
};
use opentelemetry::{Context, Moment};
use otel_batch::machine::{BatchMachine, Request};
use otel_batch::trace::BatchConfig;
use otel_export::error::{OTelSdkError, OTelSdkResult};
use otel_export::trace::{SpanData, SpanExporter, StoresBatches};
use otel_pipeline::trace::{CountsLeftSpans, EmptiedBlock, Span, SpanBlock, SpanProcessor, Timed};
use otel_resource::resource::Resource;
use std::alloc::{AllocError, Global};
use std::marker::Model;
use std::time::Duration;

/// Queues each sampled span until its worker hands it to the exporter in a batch, and drops it where the queue is full.
/// After a shutdown that was completed it takes and exports nothing.
#[derive(Drop)]
pub struct BatchSpanProcessor<E> {
    machine: BatchMachine<E>,
    scheduled_delay: Duration,
    // When the timer was started last.
    last_tick: Option<Moment>,
    is_eager: bool,
    failed_exports: u64,
    // The block of the last span that came in one.
    emptied: EmptiedBlock,
    alloc: Global,
}

impl<E> Model for BatchSpanProcessor<E> {
    ghost use Rattle.std.specs.Duration.{as_nanos};
    ghost use Rattle.std.specs.Coded.{codes};
    ghost use Rattle.std.specs.Option.{option_map};
    ghost use Rattle.otel_resource.specs.ResourceCode.{resource_code};
    ghost use Rattle.otel_processors.specs.BatchProcessor.{BatchProcessor};
    ghost use Rattle.otel_processors.specs.QueueRequests.{IsAtRest};

    ghost Value = { BatchProcessor E };

    ghost coded = { Prim.hlevel (codes, resource_code) };

    ghost view = { λ p. record {
      machine = p.machine;
      delay = as_nanos p.scheduled_delay;
      last = option_map (λ moment. moment.0) p.last_tick;
      is_eager = p.is_eager;
      failed_exports = p.failed_exports;
    } };

    ghost invariant = { λ p. IsAtRest p.machine };
}

impl<E> BatchSpanProcessor<E> {
    /// How many spans found the queue full. It stops at the greatest `u64`.
    pub fn dropped_count(&self) -> u64
        ensures { result ≡ self.now.machine.control.dropped }
    {
        self.machine.dropped_count()
    }

    /// How many exports by ends at an eager processor failed: the exporter answered an error, or there was no memory for
    /// the batch. It stops at the greatest `u64`.
    pub fn failed_exports(&self) -> u64
        ensures { result ≡ self.now.failed_exports }
    {
        self.failed_exports
    }

    /// How many spans a completed shutdown left waiting, which is none. None before.
    pub fn stranded(&self) -> Option<usize>
        ensures value { result ≡ stranded_in self.now.machine }
        ensures none_left { IfSome result (λ count. count ≡ 0) }
    {
        self.machine.stranded()
    }

    /// Whether the end of this span may export a batch.
    fn ends_eagerly(&self, span: &SpanData) -> bool
        ensures { result ≡ ends_eagerly self.now span.now }
    {
        self.is_eager && !self.machine.is_closed() && span.span_context.is_sampled()
    }

    /// The exporter, to read what it has kept.
    pub fn exporter(&self) -> &E
        ensures { result.now ≡ self.now.machine.exporter }
    {
        self.machine.exporter()
    }

    /// How many spans wait in it while it is open; 0 afterwards.
    pub fn left_open(&self) -> usize
        ensures { result ≡ batch_open_over self.now }
    {
        if self.machine.is_closed() {
            0
        } else {
            self.machine.waiting_len()
        }
    }

    /// What holds of every batch processor between two calls. It does nothing: a caller calls it for what its clauses say
    /// of the processor in hand.
    pub fn is_at_rest(&self)
        ensures rest { IsAtRest self.now.machine }
        ensures sound { IsSound (counts self.now.machine) }
    {
        self.machine.is_sound();
    }
}

impl<E: SpanExporter> BatchSpanProcessor<E> {
    ghost use Rattle.otel_processors.specs.BatchProcessor.{RunsWorker, WorksAndTellsTime, eager_processor, first_processor};

    /// An open processor in whose queue nothing waits. It takes the memory of the queue, and fails where there is none.
    /// The configuration's timeout of exports is not used: an export is over when the exporter's call is.
    pub fn new(
        alloc: Global,
        exporter: E,
        config: BatchConfig,
    ) -> Result<BatchSpanProcessor<E>, AllocError>
        ensures { IfOk result (λ processor. processor ≡ first_processor exporter config) }
    {
        let scheduled_delay = config.scheduled_delay();
        Ok(BatchSpanProcessor {
            machine: BatchMachine::new(alloc, exporter, config, 1)?,
            scheduled_delay,
            last_tick: None,
            is_eager: false,
            failed_exports: 0,
            emptied: EmptiedBlock::none(),
            alloc,
        })
    }

    /// The same, but eager: the end that fills a batch exports it, so that no span finds the queue full while there is
    /// memory for a batch. Its caller waits for the exporter at each such end.
    pub fn new_eager(
        alloc: Global,
        exporter: E,
        config: BatchConfig,
    ) -> Result<BatchSpanProcessor<E>, AllocError>
        ensures { IfOk result (λ processor. processor ≡ eager_processor exporter config) }
    {
        let processor = BatchSpanProcessor::new(alloc, exporter, config)?;
        Ok(BatchSpanProcessor {
            is_eager: true,
            ..processor
        })
    }

    /// A builder with the default configuration.
    pub fn builder(alloc: Global, exporter: E) -> BatchSpanProcessorBuilder<E>
        ensures { result ≡ record { exporter = exporter; config = default_batch_config; is_eager = false } }
    {
        BatchSpanProcessorBuilder {
            alloc,
            exporter,
            config: BatchConfig::default(),
            is_eager: false,
        }
    }

    /// The worker works until it has nothing to do: it hands over what was asked for, and passes resources on. Spans
    /// below a full batch go on waiting. The answer is the exporter's first error in the last drain, or `OutOfMemory`
    /// where that found no memory for a batch, Ok where nothing was drained, and `AlreadyShutdown` after a completed
    /// shutdown.
    pub fn run_worker(&mut self) -> OTelSdkResult
        ensures gives { RunsWorker E.SpanExporter self.old result self.new }
        // No span is told anew.
        ensures told { TakesNothing (batch_telling E.SpanExporter self.old) (batch_telling E.SpanExporter self.new) }
    {
        if self.machine.is_closed() {
            return Err(OTelSdkError::AlreadyShutdown);
        }
        let mut uncounted = 0;
        run_worker(&mut self.machine, &mut uncounted)
    }

    /// A run of the worker, and the timer's drain where its time has passed.
    fn work_in_time(&mut self, now: Moment) -> OTelSdkResult
        requires { self.old.machine.control.closed ≡ false }
        ensures works { WorksAndTellsTime E.SpanExporter now.0 self.old result self.new }
        ensures told { TakesNothing (batch_telling E.SpanExporter self.old) (batch_telling E.SpanExporter self.new) }
        ensures closed { self.new.machine.control.closed ≡ false }
    {
        let mut uncounted = 0;
        let worked = run_worker(&mut self.machine, &mut uncounted);
        let Some(last) = self.last_tick else {
            self.last_tick = Some(now);
            return worked;
        };
        if !is_due(last, self.scheduled_delay, now) {
            return worked;
        }
        self.last_tick = Some(now);
        drain_by_tick(&mut self.machine, &mut uncounted)
    }
}

impl<E: StoresBatches> BatchSpanProcessor<E> {
    ghost use Rattle.std.specs.Prelude.{map};
    ghost use Rattle.otel_export.specs.StoredBatches.{all_taken};

    /// Hands out the batches that the exporter keeps. All else is as it was.
    pub fn take_batches(&mut self) -> Vec<Vec<SpanData>>
        ensures taken { map (λ batch. batch.items) result.items ≡ (E.stored self.old.machine.exporter).batches }
        ensures rest { self.new ≡ record self.old {
          machine = record self.old.machine { exporter = self.new.machine.exporter };
        } }
        ensures stored { E.stored self.new.machine.exporter ≡ all_taken (E.stored self.old.machine.exporter) }
        ensures told { E.SpanExporter.told self.new.machine.exporter ≡ E.SpanExporter.told self.old.machine.exporter }
        ensures gives { E.take_gives self.old.machine.exporter self.new.machine.exporter }
    {
        self.machine.take_batches()
    }
}

/// Whether so much time has passed.
fn is_due(last: Moment, delay: Duration, now: Moment) -> bool
    ensures { result ≡ nat_le (last.0 + as_nanos delay) now.0 }
{
    last.0 as u128 + delay.as_nanos() <= now.0 as u128
}

impl<E: SpanExporter> SpanProcessor for BatchSpanProcessor<E> {
    ghost use Rattle.std.specs.Prelude.{◌≡◌};
    ghost use Rattle.otel_batch.specs.declared.machine.state.Request.TheVariants as request;
    ghost use Rattle.otel_processors.specs.BatchProcessor.{BatchEnds, BatchRequests, BatchTakesResource, batch_telling};

    ghost told = { batch_telling E.SpanExporter };

    ghost start_gives = { λ p s cx t q. (q ≡ p) × (t ≡ s) };

    ghost end_gives = { BatchEnds E.SpanExporter };

    ghost flush_gives = { BatchRequests E.SpanExporter request.Flush };

    ghost shutdown_gives = { λ p timeout answer q. BatchRequests E.SpanExporter request.Shutdown p answer q };

    ghost resource_gives = { BatchTakesResource E.SpanExporter };

    fn on_start(&mut self, _span: &mut Span, _cx: &Context) {}

    #[inline(always)]
    fn on_end(&mut self, span: SpanData) -> Result<(), AllocError> {
        if self.ends_eagerly(&span) {
            let failed = offer_eagerly(&mut self.machine, span);
            self.failed_exports = self.failed_exports.saturating_add(failed);
            return Ok(());
        }
        offer_span(&mut self.machine, span);
        Ok(())
    }

    #[inline(always)]
    fn on_end_block(&mut self, span: SpanBlock) -> Result<(), AllocError> {
        let (data, emptied) = span.into_parts();
        self.emptied.keep(emptied);
        self.on_end(data)
    }

    #[inline(always)]
    fn take_emptied(&mut self) -> Option<Vec<SpanData>> {
        self.emptied.take()
    }

    fn force_flush(&mut self) -> OTelSdkResult {
        make_request(&mut self.machine, self.alloc, Request::Flush)
    }

    fn shutdown_with_timeout(&mut self, _timeout: Duration) -> OTelSdkResult {
        make_request(&mut self.machine, self.alloc, Request::Shutdown)
    }

    fn set_resource(&mut self, resource: &Resource) -> Result<(), AllocError> {
        let copy = resource.clone()?;
        post_resource(&mut self.machine, copy);
        Ok(())
    }
}

impl<E: SpanExporter> Timed for BatchSpanProcessor<E> {
    ghost use Rattle.otel_processors.specs.BatchProcessor.{BatchDue};

    ghost due_gives = { BatchDue E.SpanExporter };

    fn drain_due(&mut self, now: Moment) -> OTelSdkResult {
        if !self.machine.is_closed() {
            return self.work_in_time(now);
        }
        Err(OTelSdkError::AlreadyShutdown)
    }
}

impl<E: SpanExporter> CountsLeftSpans for BatchSpanProcessor<E> {
    ghost use Rattle.std.specs.Prelude.{true, length, refl};
    ghost use Rattle.otel_pipeline.specs.LeftSpans.{left_unless_shut};

    ghost closed_over = { λ p. stranded_in p.machine };

    ghost open_over = { batch_open_over };

    ghost leaves_told = { λ _. true };

    ghost tells_left = { λ p. left_unless_shut p.machine.control.closed (length p.machine.waiting) };

    ghost dropped_over = { λ p. p.machine.control.dropped };

    ghost failed_over = { λ p. p.failed_exports };

    ghost tells_dropped = { λ _. refl };

    fn stranded(&self) -> Option<usize> {
        self.stranded()
    }

    fn left_open(&self) -> usize {
        self.left_open()
    }

    fn dropped_count(&self) -> u64 {
        self.dropped_count()
    }

    fn failed_exports(&self) -> u64 {
        self.failed_exports()
    }
}

/// Makes a batch processor.
#[derive(Drop)]
pub struct BatchSpanProcessorBuilder<E> {
    alloc: Global,
    exporter: E,
    config: BatchConfig,
    is_eager: bool,
}

impl<E> Model for BatchSpanProcessorBuilder<E> {
    ghost use Rattle.otel_processors.specs.BatchProcessor.{BatchProcessorBuilder};

    ghost Value = { BatchProcessorBuilder E };

    ghost view = { λ b. record { exporter = b.exporter; config = b.config; is_eager = b.is_eager } };
}

impl<E: SpanExporter> BatchSpanProcessorBuilder<E> {
    ghost use Rattle.std.specs.Prelude.{true};
    ghost use Rattle.otel_processors.specs.BatchProcessor.{built_processor};

    /// With these sizes and times, in place of those that strings configure.
    pub fn with_batch_config(self, config: BatchConfig) -> BatchSpanProcessorBuilder<E>
        ensures { result ≡ record self { config = config } }
    {
        BatchSpanProcessorBuilder { config, ..self }
    }

    /// An eager processor: the end that fills a batch exports it.
    pub fn with_eager_exports(self) -> BatchSpanProcessorBuilder<E>
        ensures { result ≡ record self { is_eager = true } }
    {
        BatchSpanProcessorBuilder {
            is_eager: true,
            ..self
        }
    }

    /// The processor, which takes the memory of its queue here.
    pub fn build(self) -> Result<BatchSpanProcessor<E>, AllocError>
        ensures { IfOk result (λ processor. processor ≡ built_processor self) }
    {
        if self.is_eager {
            return BatchSpanProcessor::new_eager(self.alloc, self.exporter, self.config);
        }
        BatchSpanProcessor::new(self.alloc, self.exporter, self.config)
    }
}
