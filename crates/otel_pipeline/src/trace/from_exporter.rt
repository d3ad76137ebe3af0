//! Processors that are made over an exporter, at once or after a queue. A provider's builder knows no queue, and makes
//! its processors through this trait.

ghost use Rattle.std.specs.Prelude.{◌≡◌, IfOk};
ghost use Rattle.otel_sampling.specs.ConfigStrings.{PlainBatchStrings};

use crate::trace::SpanProcessor;
use otel_sampling::trace::BatchStrings;
use std::alloc::{AllocError, Global};

/// A processor of several kinds, which can be made over an exporter: one that exports at once, or one after a queue.
pub trait FromExporter: SpanProcessor {
    type Exporter: Drop;

    /// The processor that exports each span at once.
    ghost simple_of: { Self.Exporter → Self };

    /// Which processor with a queue is made: the exporter, the strings, and the processor.
    ghost batch_of: { Self.Exporter → PlainBatchStrings → Self → Type 0 };

    /// Which processor with a queue is made that exports a full batch where the span ends that fills it.
    ghost eager_batch_of: { Self.Exporter → PlainBatchStrings → Self → Type 0 };

    fn simple(alloc: Global, exporter: Self::Exporter) -> Self
        ensures { result ≡ simple_of exporter };

    /// `AllocError` where there is no memory for what it holds; the exporter is then dropped.
    fn batch(
        alloc: Global,
        exporter: Self::Exporter,
        strings: &BatchStrings,
    ) -> Result<Self, AllocError>
        ensures { IfOk result (λ made. batch_of exporter strings.now made) };

    /// The one for a service that calls nothing but the ends of its spans. `AllocError` as with `batch`.
    fn eager_batch(
        alloc: Global,
        exporter: Self::Exporter,
        strings: &BatchStrings,
    ) -> Result<Self, AllocError>
        ensures { IfOk result (λ made. eager_batch_of exporter strings.now made) };
}
