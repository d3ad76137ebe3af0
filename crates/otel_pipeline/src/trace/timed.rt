//! What a processor has to do from time to time, without being asked by a span: the work of a timer. There is no clock
//! here; whoever holds a provider says what time it is (`ProviderOf::run_processors`).

ghost use Rattle.std.specs.Prelude.{◌≡◌, ℕ, Result};
ghost use Rattle.otel_export.specs.declared.error.OTelSdkError.{OTelSdkError};
ghost use Rattle.otel_pipeline.specs.ProcessorTelling.{TakesNothing};

use crate::trace::SpanProcessor;
use opentelemetry::Moment;
use otel_export::error::OTelSdkResult;

/// A processor that does what is due when it is told the time.
pub trait Timed: SpanProcessor {
    /// What it does then: the processor before it, the moment, the answer, and the processor after it.
    ghost due_gives: { Self → ℕ → Result (Unit {0}) OTelSdkError → Self → Type 0 };

    /// Does what is due at this moment, which is not before that of an earlier call, and answers what came of it; `Ok`
    /// where nothing is due.
    fn drain_due(&mut self, now: Moment) -> OTelSdkResult
        ensures told { TakesNothing (Self.SpanProcessor.told self.old) (Self.SpanProcessor.told self.new) }
        ensures is_open { (Self.SpanProcessor.told self.new).is_open ≡ (Self.SpanProcessor.told self.old).is_open }
        ensures gives { due_gives self.old now.0 result self.new };
}
