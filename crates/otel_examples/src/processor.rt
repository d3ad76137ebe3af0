//! A processor of one's own in front of another one: it keeps back the spans that are marked, and hands on all else
//! that it is asked.
//!
//! It tells nothing, which is what a processor does that says no more. Two relations say what its calls do, so that a
//! provider over it promises as much: a start is the other one's start, and an end is the other one's end or leaves
//! that as it was. `queueing_processor.rt` has a processor that tells. Among processors of other kinds, this one is
//! `Processor::Custom(Box::new(alloc, FilteringProcessor { inner })?)`.

use opentelemetry::{Context, Value};
use opentelemetry_sdk::Resource;
use opentelemetry_sdk::error::OTelSdkResult;
use opentelemetry_sdk::trace::{CountsLeftSpans, Span, SpanData, SpanProcessor};
use std::alloc::AllocError;
use std::time::Duration;

/// The attribute that marks a span, where it is true.
pub const MARK: &str = "example.drop";

/// Keeps back the spans that are marked.
#[derive(Drop)]
pub struct FilteringProcessor<P> {
    pub inner: P,
}

fn is_marked(span: &SpanData) -> bool {
    for attribute in &span.attributes {
        if attribute.key.as_str() == MARK && matches!(attribute.value, Value::Bool(true)) {
            return true;
        }
    }
    false
}

impl<P: SpanProcessor> SpanProcessor for FilteringProcessor<P> {
    ghost use Rattle.std.specs.Prelude.{◌≡◌, ◌⊎◌};

    ghost start_gives = { λ p span cx edited q. P.start_gives p.inner span cx edited q.inner };

    ghost end_gives = { λ p span answer q. (q ≡ p) ⊎ P.end_gives p.inner span answer q.inner };

    fn on_start(&mut self, span: &mut Span, cx: &Context) {
        self.inner.on_start(span, cx);
    }

    fn on_end(&mut self, span: SpanData) -> Result<(), AllocError> {
        if is_marked(&span) {
            return Ok(());
        }
        self.inner.on_end(span)
    }

    fn force_flush(&mut self) -> OTelSdkResult {
        self.inner.force_flush()
    }

    fn shutdown_with_timeout(&mut self, timeout: Duration) -> OTelSdkResult {
        self.inner.shutdown_with_timeout(timeout)
    }

    fn set_resource(&mut self, resource: &Resource) -> Result<(), AllocError> {
        self.inner.set_resource(resource)
    }
}

impl<P: CountsLeftSpans> CountsLeftSpans for FilteringProcessor<P> {
    ghost closed_over = { λ p. P.closed_over p.inner };

    ghost open_over = { λ p. P.open_over p.inner };

    ghost dropped_over = { λ p. P.dropped_over p.inner };

    ghost failed_over = { λ p. P.failed_over p.inner };

    // It tells nothing, so there is nothing that what it leaves could agree with.
    ghost use Rattle.std.specs.Prelude.{false};

    ghost leaves_told = { λ _. false };

    ghost tells_left = { λ _. tt };

    ghost tells_dropped = { λ _. tt };

    fn stranded(&self) -> Option<usize> {
        self.inner.stranded()
    }

    fn left_open(&self) -> usize {
        self.inner.left_open()
    }

    fn dropped_count(&self) -> u64 {
        self.inner.dropped_count()
    }

    fn failed_exports(&self) -> u64 {
        self.inner.failed_exports()
    }
}
