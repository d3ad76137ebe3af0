//! An exporter of either kind: the one that keeps its batches in memory, which a caller can read again, or an object
//! of the caller's own.

ghost use Rattle.std.specs.Prelude.{◌≡◌};

use crate::error::OTelSdkResult;
use crate::trace::{InMemorySpanExporter, SpanData, SpanExporter};
use otel_resource::resource::Resource;
use std::time::Duration;

/// An exporter of one of two kinds, generic in both.
#[derive(Drop)]
pub enum ExporterOf<M, C> {
    Memory(M),
    Custom(C),
}

/// What a processor of a provider exports to.
pub type ExporterBox = ExporterOf<InMemorySpanExporter, Box<dyn SpanExporter>>;

impl<M: SpanExporter, C: SpanExporter> SpanExporter for ExporterOf<M, C> {
    ghost use Rattle.otel_export.specs.ExporterKinds.{ExporterGives};
    ghost use Rattle.otel_export.specs.RestsOr.{RestsOr};
    ghost use Rattle.otel_export.specs.declared.trace.exporter_box.ExporterOf.TheVariants as kinds;

    ghost told = { λ e. elim e [ kinds.Memory m ↦ M.told m | kinds.Custom c ↦ C.told c ] };

    ghost export_gives = { λ e batch r f. ExporterGives (λ m n. M.export_gives m batch r n)
        (λ c d. C.export_gives c batch r d) e f };

    ghost shutdown_gives = { λ e t r f. ExporterGives (λ m n. M.shutdown_gives m t r n)
        (λ c d. C.shutdown_gives c t r d) e f };

    ghost flush_gives = { λ e r f. ExporterGives
        (λ m n. RestsOr M.flush_gives m r n)
        (λ c d. RestsOr C.flush_gives c r d) e f };

    ghost resource_gives = { λ e s f. ExporterGives (λ m n. M.resource_gives m s n)
        (λ c d. C.resource_gives c s d) e f };

    #[inline(always)]
    fn export(&mut self, batch: Vec<SpanData>) -> OTelSdkResult {
        match self {
            ExporterOf::Memory(memory) => memory.export(batch),
            ExporterOf::Custom(custom) => custom.export(batch),
        }
    }

    fn export_from(&mut self, batch: &mut Vec<SpanData>) -> OTelSdkResult {
        match self {
            ExporterOf::Memory(memory) => memory.export_from(batch),
            ExporterOf::Custom(custom) => custom.export_from(batch),
        }
    }

    fn shutdown_with_timeout(&mut self, timeout: Duration) -> OTelSdkResult {
        match self {
            ExporterOf::Memory(memory) => memory.shutdown_with_timeout(timeout),
            ExporterOf::Custom(custom) => custom.shutdown_with_timeout(timeout),
        }
    }

    fn shutdown(&mut self) -> OTelSdkResult {
        match self {
            ExporterOf::Memory(memory) => memory.shutdown(),
            ExporterOf::Custom(custom) => custom.shutdown(),
        }
    }

    fn force_flush(&mut self) -> OTelSdkResult {
        match self {
            ExporterOf::Memory(memory) => memory.force_flush(),
            ExporterOf::Custom(custom) => custom.force_flush(),
        }
    }

    fn set_resource(&mut self, resource: &Resource) {
        match self {
            ExporterOf::Memory(memory) => memory.set_resource(resource),
            ExporterOf::Custom(custom) => custom.set_resource(resource),
        }
    }
}
