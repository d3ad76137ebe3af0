//! The interface of span processors: what is told when a span starts and handed over when it ends (OpenTelemetry
//! specification, "Span Processor").
//!
//! ```text
//!   SdkTracer::start                      Span::end_with_timestamp
//!         |                                         |
//!         v                                         v
//!   +-----------+   edits of the span until   +-----------+     +--------------+
//!   | on_start  | --------------------------> |  on_end   | --> | SpanExporter |
//!   +-----------+                             +-----------+     +--------------+
//! ```
//!
//! Each processor of a provider is asked in its turn, also where one before it refused. To contracts a processor has a
//! telling, and a relation for each call between the processor before it, what it is given and answers, and the
//! processor after it.

ghost use Rattle.std.specs.Prelude.{◌≡◌, ℕ, [], IfSome, OnOk, Result};
ghost use Rattle.std.specs.Duration.{as_nanos};
ghost use Rattle.std.specs.declared.alloc.AllocError.{AllocError};
ghost use Rattle.opentelemetry.specs.Plain.{PlainContext};
ghost use Rattle.otel_resource.specs.Resource.{PlainResource};
ghost use Rattle.otel_export.specs.declared.error.OTelSdkError.{OTelSdkError};
ghost use Rattle.otel_export.specs.PlainSpanData.{PlainSpanData};
ghost use Rattle.otel_pipeline.specs.ProcessorTelling.{ProcessorTelling, TakesNothing, TakesSpan, TellsNoneWaiting};
ghost use Rattle.otel_pipeline.specs.ProcessorTelling.{silent};
ghost use Rattle.otel_pipeline.specs.SpanHistory.{PlainSpan, IsEdited};

use crate::trace::{Span, SpanBlock};
use opentelemetry::Context;
use otel_export::error::OTelSdkResult;
use otel_export::trace::SpanData;
use otel_resource::resource::Resource;
use std::alloc::AllocError;
use std::time::Duration;

/// Takes ended spans.
pub trait SpanProcessor: Drop {
    /// What it says that it was given; a processor that claims nothing is silent.
    ghost told: { Self → ProcessorTelling } = { λ _. silent };

    /// What a start does: the processor and the span before it, the context, the span and the processor after it.
    ghost start_gives: { Self → PlainSpan → PlainContext → PlainSpan
        → Self → Type 0 } = { λ _ _ _ _ _. Unit {0} };

    /// What an end does: the processor before it, the span's data, the answer, and the processor after it.
    ghost end_gives: { Self → PlainSpanData → Result (Unit {0}) AllocError
        → Self → Type 0 } = { λ _ _ _ _. Unit {0} };

    /// What a flush does.
    ghost flush_gives: { Self → Result (Unit {0}) OTelSdkError → Self → Type 0 } = { λ _ _ _. Unit {0} };

    /// What a shutdown does: the processor before it, the timeout in nanoseconds, the answer, and the processor after
    /// it.
    ghost shutdown_gives: { Self → ℕ → Result (Unit {0}) OTelSdkError
        → Self → Type 0 } = { λ _ _ _ _. Unit {0} };

    /// What it does with the resource: the processor before it, the resource, the answer, and the processor after it.
    ghost resource_gives: { Self → PlainResource → Result (Unit {0}) AllocError
        → Self → Type 0 } = { λ _ _ _ _. Unit {0} };

    /// A span starts. The processor may edit it and cannot replace it.
    fn on_start(&mut self, span: &mut Span, cx: &Context)
        ensures told { told self.new ≡ told self.old }
        ensures edits { IsEdited span.old span.new }
        ensures gives { start_gives self.old span.old cx.now span.new self.new };

    /// A span has ended, with this data. `AllocError` where there is no memory to take it.
    fn on_end(&mut self, span: SpanData) -> Result<(), AllocError>
        ensures told { TakesSpan (told self.old) span result (told self.new) }
        ensures gives { end_gives self.old span result self.new };

    /// The same for a span that comes in the block in which it was recorded, as it does to the last processor of a
    /// provider. One that hands each span on as a batch takes the block for it; by default the data comes out of it.
    #[inline(always)]
    fn on_end_block(&mut self, span: SpanBlock) -> Result<(), AllocError>
        ensures told { TakesSpan (told self.old) span result (told self.new) }
        ensures gives { end_gives self.old span result self.new }
    {
        self.on_end(span.into_data())
    }

    /// The list of a block that it is through with, emptied, so that the next span to start need not ask for its block;
    /// by default there is none. To contracts the processor stays as it was.
    #[inline(always)]
    fn take_emptied(&mut self) -> Option<Vec<SpanData>>
        ensures emptied { IfSome result (λ list. list.items ≡ []) }
        ensures same { self.new ≡ self.old }
    {
        None
    }

    /// Should export what waits, and answer what its exporter answered; what it does by its contracts is `flush_gives`.
    fn force_flush(&mut self) -> OTelSdkResult
        ensures told { TakesNothing (told self.old) (told self.new) }
        ensures is_open { (told self.new).is_open ≡ (told self.old).is_open }
        ensures emptied { OnOk result (TellsNoneWaiting (told self.new)) }
        ensures gives { flush_gives self.old result self.new };

    /// Should export what waits and nothing afterwards, and answer what its exporter answered, or `Timeout` where that
    /// took longer; what it does by its contracts is `shutdown_gives`.
    fn shutdown_with_timeout(&mut self, timeout: Duration) -> OTelSdkResult
        ensures told { TakesNothing (told self.old) (told self.new) }
        ensures emptied { OnOk result (TellsNoneWaiting (told self.new)) }
        ensures gives { shutdown_gives self.old (as_nanos timeout) result self.new };

    /// The same with 5 seconds.
    fn shutdown(&mut self) -> OTelSdkResult
        ensures told { TakesNothing (told self.old) (told self.new) }
        ensures emptied { OnOk result (TellsNoneWaiting (told self.new)) }
        ensures gives { shutdown_gives self.old 5_000_000_000 result self.new }
    {
        self.shutdown_with_timeout(Duration::from_secs(5))
    }

    /// The spans to come are of this resource. `AllocError` where there is no memory to keep it.
    fn set_resource(&mut self, resource: &Resource) -> Result<(), AllocError>
        ensures told { told self.new ≡ told self.old }
        ensures gives { resource_gives self.old resource.now result self.new };
}

impl SpanProcessor for Box<dyn SpanProcessor> {
    ghost use Rattle.std.specs.Prelude.{◌≡◌};

    ghost told = { λ b. (SpanProcessor-box b).told b.value };

    ghost start_gives = { λ b s cx t c. (v : _) × (c ≡ record b { value = v })
        × (SpanProcessor-box b).start_gives b.value s cx t v };

    ghost end_gives = { λ b d r c. (v : _) × (c ≡ record b { value = v })
        × (SpanProcessor-box b).end_gives b.value d r v };

    ghost flush_gives = { λ b r c. (v : _) × (c ≡ record b { value = v })
        × (SpanProcessor-box b).flush_gives b.value r v };

    ghost shutdown_gives = { λ b t r c. (v : _) × (c ≡ record b { value = v })
        × (SpanProcessor-box b).shutdown_gives b.value t r v };

    ghost resource_gives = { λ b s r c. (v : _) × (c ≡ record b { value = v })
        × (SpanProcessor-box b).resource_gives b.value s r v };

    fn on_start(&mut self, span: &mut Span, cx: &Context) {
        let inner = &mut **self;
        inner.on_start(span, cx);
    }

    fn on_end(&mut self, span: SpanData) -> Result<(), AllocError> {
        let inner = &mut **self;
        inner.on_end(span)
    }

    fn on_end_block(&mut self, span: SpanBlock) -> Result<(), AllocError> {
        let inner = &mut **self;
        inner.on_end_block(span)
    }

    fn take_emptied(&mut self) -> Option<Vec<SpanData>> {
        let inner = &mut **self;
        inner.take_emptied()
    }

    fn force_flush(&mut self) -> OTelSdkResult {
        let inner = &mut **self;
        inner.force_flush()
    }

    fn shutdown_with_timeout(&mut self, timeout: Duration) -> OTelSdkResult {
        let inner = &mut **self;
        inner.shutdown_with_timeout(timeout)
    }

    fn shutdown(&mut self) -> OTelSdkResult {
        let inner = &mut **self;
        inner.shutdown()
    }

    fn set_resource(&mut self, resource: &Resource) -> Result<(), AllocError> {
        let inner = &mut **self;
        inner.set_resource(resource)
    }
}
