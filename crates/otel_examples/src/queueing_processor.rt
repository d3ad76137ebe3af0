//! A processor of one's own that tells what becomes of each span. It keeps the sampled spans in a queue, and exports
//! all that waits in one batch when it is flushed or shut down.
//!
//! ```text
//!                      +---------------------------------------+
//!     on_end  -------> |  waiting  --- force_flush, shutdown --|--->  exporter
//!   (a sampled span)   +---------------------------------------+    (one batch)
//!        |
//!        +--> counted as dropped, where the queue is full
//! ```
//!
//! What it tells was heard is what the exporter tells, followed by what waits. So a flush, which moves spans from the
//! queue to the exporter, changes nothing of it, and the layers above need not know that there is a queue. The check
//! proves that each call keeps what the trait asks of a telling: it would refuse an `on_end` that lost a span without a
//! count or counted one that it kept, and a `force_flush` that forgot a span.

ghost use Rattle.std.specs.Prelude.{◌≡◌, []};

use opentelemetry::Context;
use opentelemetry_sdk::Resource;
use opentelemetry_sdk::error::OTelSdkResult;
use opentelemetry_sdk::trace::{
    CountsLeftSpans, Span, SpanBlock, SpanData, SpanExporter, SpanProcessor,
};
use std::alloc::{AllocError, Global};
use std::mem;
use std::time::Duration;

/// Keeps the sampled spans until it is flushed or shut down, at most so many.
#[derive(Drop)]
pub struct QueueingProcessor<E> {
    exporter: E,
    waiting: Vec<SpanData>,
    max_queue_size: usize,
    dropped: u64,
    is_shut: bool,
    alloc: Global,
}

impl<E> QueueingProcessor<E> {
    /// A processor in which at most so many spans wait for this exporter.
    pub fn new(alloc: Global, exporter: E, max_queue_size: usize) -> QueueingProcessor<E> {
        QueueingProcessor {
            exporter,
            waiting: Vec::new(alloc),
            max_queue_size,
            dropped: 0,
            is_shut: false,
            alloc,
        }
    }

    /// The exporter, to read what it has kept.
    pub fn exporter(&self) -> &E {
        &self.exporter
    }
}

impl<E: SpanExporter> SpanProcessor for QueueingProcessor<E> {
    ghost use Rattle.std.specs.Prelude.{None, false, length, not};
    ghost use Rattle.otel_export.specs.Telling.{and_then_told};
    ghost use Rattle.otel_pipeline.specs.ProcessorTelling.{spans_told};

    // What is heard is what the exporter tells, and then what waits. A span may be refused, when memory runs out.
    ghost told = { λ p. record {
      spans = None;
      heard = and_then_told (spans_told (E.told p.exporter)) p.waiting.items;
      waiting = length p.waiting.items;
      dropped = p.dropped;
      takes_all = false;
      is_open = not p.is_shut;
    } };

    fn on_start(&mut self, _span: &mut Span, _cx: &Context) {}

    /// A span that is not sampled, or comes after the shutdown, is let go. When memory runs out the queue stays as it is,
    /// and the error says so.
    fn on_end(&mut self, span: SpanData) -> Result<(), AllocError> {
        if self.is_shut || !span.span_context.trace_flags().is_sampled() {
            return Ok(());
        }
        if self.waiting.len() >= self.max_queue_size {
            self.dropped = self.dropped.saturating_add(1);
            return Ok(());
        }
        self.waiting.push(span)?;
        Ok(())
    }

    // Each span waits out of its block, and no block is given back. A processor that keeps spans writes these two itself,
    // since the borrow checker does not follow their defaults there.
    fn on_end_block(&mut self, span: SpanBlock) -> Result<(), AllocError> {
        self.on_end(span.into_data())
    }

    fn take_emptied(&mut self) -> Option<Vec<SpanData>> {
        None
    }

    /// The queue is empty afterwards, also where the exporter answers an error: the batch was handed over.
    fn force_flush(&mut self) -> OTelSdkResult {
        if self.waiting.is_empty() {
            return Ok(());
        }
        let batch = mem::replace(&mut self.waiting, Vec::new(self.alloc));
        self.exporter.export(batch)
    }

    /// The exporter is shut down also where the flush failed; the flush's error comes first.
    fn shutdown_with_timeout(&mut self, timeout: Duration) -> OTelSdkResult {
        let flushed = self.force_flush();
        self.is_shut = true;
        let shut = self.exporter.shutdown_with_timeout(timeout);
        flushed?;
        shut
    }

    fn set_resource(&mut self, resource: &Resource) -> Result<(), AllocError> {
        self.exporter.set_resource(resource);
        Ok(())
    }
}

impl<E: SpanExporter> CountsLeftSpans for QueueingProcessor<E> {
    ghost use Rattle.std.specs.Prelude.{None, Some, true, if◌then◌else◌, length, refl};
    ghost use Rattle.otel_pipeline.specs.LeftSpans.{left_unless_shut};

    ghost closed_over = { λ p. if p.is_shut then Some (length p.waiting.items) else None };

    ghost open_over = { λ p. if p.is_shut then 0 else length p.waiting.items };

    // What it leaves while it is open is what its telling says waits.
    ghost leaves_told = { λ _. true };

    ghost tells_left = { λ p. left_unless_shut p.is_shut (length p.waiting.items) };

    ghost dropped_over = { λ p. p.dropped };

    ghost tells_dropped = { λ _. refl };

    fn stranded(&self) -> Option<usize> {
        if self.is_shut {
            Some(self.waiting.len())
        } else {
            None
        }
    }

    fn left_open(&self) -> usize {
        if self.is_shut { 0 } else { self.waiting.len() }
    }

    fn dropped_count(&self) -> u64 {
        self.dropped
    }

    /// It exports at no end of a span.
    fn failed_exports(&self) -> u64 {
        0
    }
}
