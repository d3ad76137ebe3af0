//! The law of an eager batch processor over any number of ends. The function does nothing; its contract is the law, for
//! every exporter. What an end at a processor does is its relation, by the trait.

ghost use Rattle.std.specs.Prelude.{◌≡◌, ◌<◌, ◌-◌, ◌^◌, List, true};
ghost use Rattle.otel_export.specs.PlainSpanData.{PlainSpanData};
ghost use Rattle.otel_batch.specs.Drains.{largest_batch};
ghost use Rattle.otel_batch.specs.PlainBatchConfig.{PlainBatchConfig};
ghost use Rattle.otel_processors.specs.BatchProcessor.{BatchProcessor, EndInMemory, EndInTurn, eager_processor};

use otel_export::trace::SpanExporter;

/// An eager processor with a place in its queue drops no span, however many end, as long as no drain finds no memory for
/// a batch. A new one has dropped none. Such a drain is an export that failed: where `failed_exports` is what it was
/// before, and is not the greatest `u64`, so is `dropped_count`.
pub fn eager_processors_drop_none<E: SpanExporter>()
    ensures any { (p q : BatchProcessor E) (spans : List PlainSpanData)
        → p.is_eager ≡ true → 0 < largest_batch p.machine.control → EndInMemory E.SpanExporter p spans q
        → q.machine.control.dropped ≡ p.machine.control.dropped }
    ensures new { (exporter : E) (config : PlainBatchConfig) (q : BatchProcessor E) (spans : List PlainSpanData)
        → 0 < config.max_queue_size → EndInMemory E.SpanExporter (eager_processor exporter config) spans q
        → q.machine.control.dropped ≡ 0 }
    ensures uncounted { (p q : BatchProcessor E) (spans : List PlainSpanData)
        → p.is_eager ≡ true → 0 < largest_batch p.machine.control → p.failed_exports < 2 ^ 64 - 1
        → EndInTurn E.SpanExporter p spans q → q.failed_exports ≡ p.failed_exports
        → q.machine.control.dropped ≡ p.machine.control.dropped }
{}
