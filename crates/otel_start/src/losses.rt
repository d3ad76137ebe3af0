//! How a program's scope is closed, and what was lost of its spans.

ghost use Rattle.std.specs.Prelude.{◌≡◌, IsTrue, Ok, OnOk};
ghost use Rattle.otel_start.specs.Closing.{AreNone, ClosesCounted};

use opentelemetry::propagation::TextMapPropagator;
use opentelemetry_sdk::error::OTelSdkResult;
use opentelemetry_sdk::trace::{
    CloseReport, Closed, CountsLeftSpans, GivesIds, Now, ShouldSample, Tracing,
};

/// What was lost of a program's spans.
#[derive(Debug, Drop)]
pub struct Losses {
    /// The first of: what the flush answered; what the shutdown did.
    pub failure: OTelSdkResult,
    /// How many spans found no memory, or were refused by a processor.
    pub lost: u64,
    /// How many exports at ends of spans failed.
    pub failed_exports: u128,
    /// How many spans found the queue full.
    pub dropped: u128,
    /// How many spans were left in a queue.
    pub left: u128,
}

impl Losses {
    /// Whether nothing was lost.
    pub fn are_none(&self) -> bool
        ensures { IsTrue result → AreNone self.now }
    {
        self.failure.is_ok() && self.lost == 0 && self.exported_all()
    }

    /// Whether no export failed, and no span was dropped or left in a queue.
    fn exported_all(&self) -> bool
        ensures { IsTrue result → (self.now.failed_exports ≡ 0) × (self.now.dropped ≡ 0) × (self.now.left ≡ 0) }
    {
        self.failed_exports == 0 && self.dropped == 0 && self.left == 0
    }
}

/// Has the processors of a scope export what waits, and closes it. Says what was lost.
pub fn close_counted<
    P: CountsLeftSpans,
    S: ShouldSample + Drop,
    G: GivesIds + Drop,
    C: Now + Drop,
    T: TextMapPropagator + Drop,
>(mut scope: Tracing<P, S, G, C, T>) -> Losses
    ensures { ClosesCounted P.SpanProcessor P.CountsLeftSpans.own C.tells scope result }
{
    let flushed = scope.force_flush();
    let failed_exports = scope.provider.failed_exports();
    let dropped = scope.provider.dropped_count();
    let Closed {
        report,
        lost,
        tracer: _,
        clock: _,
        propagator: _,
    } = scope.close();
    let CloseReport {
        result,
        stranded,
        left_open,
    } = report;
    Losses {
        failure: first_failure(flushed, result),
        lost,
        failed_exports,
        dropped,
        left: stranded.saturating_add(left_open),
    }
}

/// The first error of these.
fn first_failure(flushed: OTelSdkResult, closed: OTelSdkResult) -> OTelSdkResult
    ensures { OnOk result ((flushed ≡ Ok tt) × (closed ≡ Ok tt)) }
{
    flushed?;
    closed
}
