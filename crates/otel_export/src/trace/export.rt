//! The interface of exporters: each takes batches of ended spans and sends them somewhere. To contracts an exporter
//! tells the batches that it was handed, or nothing, and has a relation for each call between the exporter before it,
//! what it is given and answers, and the exporter after it: what is proved of the pipeline ends here.

ghost use Rattle.std.specs.Prelude.{◌≡◌, ℕ, List, [], ◌∷◌, Option, Result};
ghost use Rattle.std.specs.Duration.{as_nanos};
ghost use Rattle.otel_resource.specs.Resource.{PlainResource};
ghost use Rattle.otel_export.specs.declared.error.OTelSdkError.{OTelSdkError};
ghost use Rattle.otel_export.specs.PlainSpanData.{PlainSpanData};
ghost use Rattle.otel_export.specs.RestsOr.{RestsOr};
ghost use Rattle.otel_export.specs.Telling.{Tells};

use crate::error::OTelSdkResult;
use crate::trace::SpanData;
use otel_resource::resource::Resource;
use std::mem;
use std::time::Duration;

/// Sends ended spans to a backend (OpenTelemetry specification, "Span Exporter"). An exporter writes `export`,
/// `shutdown_with_timeout` and `set_resource`, so that none of the three is left out unseen, and `force_flush` where it
/// has a use for it.
pub trait SpanExporter: Drop {
    /// The batches that it was handed so far, or nothing where it does not tell.
    ghost told: { Self → Option (List (List PlainSpanData)) };

    /// What a call of `export` does: the exporter before it, the batch, the answer, and the exporter after it.
    ghost export_gives: { Self → List PlainSpanData → Result (Unit {0}) OTelSdkError
        → Self → Type 0 } = { λ _ _ _ _. Unit {0} };

    /// What a shutdown does: the exporter before it, the timeout in nanoseconds, the answer, and the exporter after it.
    ghost shutdown_gives: { Self → ℕ → Result (Unit {0}) OTelSdkError
        → Self → Type 0 } = { λ _ _ _ _. Unit {0} };

    /// What a flush does, where it does anything.
    ghost flush_gives: { Self → Result (Unit {0}) OTelSdkError → Self → Type 0 } = { λ _ _ _. Unit {0} };

    /// What it does with the resource: the exporter before it, the resource, and the exporter after it.
    ghost resource_gives: { Self → PlainResource → Self → Type 0 } = { λ _ _ _. Unit {0} };

    /// Takes a batch over. It ends the telling, or appends the batch to it. An exporter may answer `OutOfMemory` for
    /// out of memory, `AlreadyShutdown` after a shutdown, `Timeout` where it took too long, and otherwise
    /// `InternalFailure` with its reason.
    fn export(&mut self, batch: Vec<SpanData>) -> OTelSdkResult
        ensures told { Tells (told self.old) (batch.items ∷ []) (told self.new) }
        ensures gives { export_gives self.old batch.items result self.new };

    /// The same for a list that its caller keeps: it comes back empty, and has its room still where the exporter is
    /// through with the spans, so that the next batch need not ask for that. By default the list as it is goes to
    /// `export`.
    fn export_from(&mut self, batch: &mut Vec<SpanData>) -> OTelSdkResult
        ensures told { Tells (told self.old) (batch.old.items ∷ []) (told self.new) }
        ensures gives { export_gives self.old batch.old.items result self.new }
        ensures emptied { batch.new.items ≡ [] }
    {
        let none = Vec::new(*batch.allocator());
        self.export(mem::replace(batch, none))
    }

    /// No batch comes after it. Errors as those of `export`; a second one may be `AlreadyShutdown`.
    fn shutdown_with_timeout(&mut self, timeout: Duration) -> OTelSdkResult
        ensures told { told self.new ≡ told self.old }
        ensures gives { shutdown_gives self.old (as_nanos timeout) result self.new };

    /// The same with 5 seconds.
    fn shutdown(&mut self) -> OTelSdkResult
        ensures told { told self.new ≡ told self.old }
        ensures gives { shutdown_gives self.old 5_000_000_000 result self.new }
    {
        self.shutdown_with_timeout(Duration::from_secs(5))
    }

    /// Sends on what was taken over and not sent yet; by default there is nothing. Errors as those of `export`.
    fn force_flush(&mut self) -> OTelSdkResult
        ensures told { told self.new ≡ told self.old }
        ensures gives { RestsOr flush_gives self.old result self.new }
    {
        Ok(())
    }

    /// The spans of the batches to come are of this resource.
    fn set_resource(&mut self, resource: &Resource)
        ensures told { told self.new ≡ told self.old }
        ensures gives { resource_gives self.old resource.now self.new };
}

impl SpanExporter for Box<dyn SpanExporter> {
    ghost use Rattle.std.specs.Prelude.{◌≡◌};
    ghost use Rattle.otel_export.specs.RestsOr.{RestsOr};

    ghost told = { λ b. (SpanExporter-box b).told b.value };

    ghost export_gives = { λ b batch r c. (v : _) × (c ≡ record b { value = v })
        × (SpanExporter-box b).export_gives b.value batch r v };

    ghost shutdown_gives = { λ b t r c. (v : _) × (c ≡ record b { value = v })
        × (SpanExporter-box b).shutdown_gives b.value t r v };

    ghost flush_gives = { λ b r c. (v : _) × (c ≡ record b { value = v })
        × RestsOr (SpanExporter-box b).flush_gives b.value r v };

    ghost resource_gives = { λ b s c. (v : _) × (c ≡ record b { value = v })
        × (SpanExporter-box b).resource_gives b.value s v };

    fn export(&mut self, batch: Vec<SpanData>) -> OTelSdkResult {
        let inner = &mut **self;
        inner.export(batch)
    }

    fn export_from(&mut self, batch: &mut Vec<SpanData>) -> OTelSdkResult {
        let inner = &mut **self;
        inner.export_from(batch)
    }

    fn shutdown_with_timeout(&mut self, timeout: Duration) -> OTelSdkResult {
        let inner = &mut **self;
        inner.shutdown_with_timeout(timeout)
    }

    fn shutdown(&mut self) -> OTelSdkResult {
        let inner = &mut **self;
        inner.shutdown()
    }

    fn force_flush(&mut self) -> OTelSdkResult {
        let inner = &mut **self;
        inner.force_flush()
    }

    fn set_resource(&mut self, resource: &Resource) {
        let inner = &mut **self;
        inner.set_resource(resource);
    }
}
