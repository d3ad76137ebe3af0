//! How many spans a processor leaves in its queue, for whoever closes a provider (`ProviderOf::close`), how many it
//! dropped (`ProviderOf::dropped_count`), and how many exports at ends of spans failed (`ProviderOf::failed_exports`).

ghost use Rattle.std.specs.Prelude.{◌≡◌, ℕ, Bool, Option, None};
ghost use Rattle.otel_pipeline.specs.LeftSpans.{DroppedTold, LeavesTold};

use crate::trace::SpanProcessor;

/// A processor that says how many spans it leaves behind, how many it dropped, and how many exports failed of which no
/// answer told. One that has no queue answers `None` and 0.
pub trait CountsLeftSpans: SpanProcessor {
    /// How many spans it closed over. The default says that it never closes over any.
    ghost closed_over: { Self → Option ℕ } = { λ _. None };

    /// How many spans waited when it closed; `None` while it is open.
    fn stranded(&self) -> Option<usize>
        ensures { result ≡ closed_over self.now };

    /// How many spans wait in it while it is open. The default says none.
    ghost open_over: { Self → ℕ } = { λ _. 0 };

    /// How many spans wait; 0 once it is closed.
    fn left_open(&self) -> usize
        ensures { result ≡ open_over self.now };

    /// How many spans it dropped because its queue was full. The default says none.
    ghost dropped_over: { Self → ℕ } = { λ _. 0 };

    /// How many spans it dropped because its queue was full. It stops at the greatest `u64`.
    fn dropped_count(&self) -> u64
        ensures { result ≡ dropped_over self.now };

    /// How many exports at ends of spans failed. The default says none.
    ghost failed_over: { Self → ℕ } = { λ _. 0 };

    /// How many exports at ends of spans failed, which no end answers. It stops at the greatest `u64`.
    fn failed_exports(&self) -> u64
        ensures { result ≡ failed_over self.now };

    /// Whether it leaves what its telling says; one that claims nothing says false.
    ghost leaves_told: { Self → Bool };

    /// While such a processor is open, it leaves as many as its telling says wait.
    ghost tells_left: { (p : Self) → LeavesTold (leaves_told p) (Self.SpanProcessor.told p).is_open (open_over p)
        (Self.SpanProcessor.told p).waiting };

    /// Such a processor dropped as many as its telling says.
    ghost tells_dropped: { (p : Self) → DroppedTold (leaves_told p) (dropped_over p)
        (Self.SpanProcessor.told p).dropped };
}

/// Nothing is asked of a boxed processor: it counts as one that leaves and drops none and whose exports do not fail,
/// whatever it tells.
impl CountsLeftSpans for Box<dyn SpanProcessor> {
    ghost use Rattle.std.specs.Prelude.{false};

    ghost leaves_told = { λ _. false };

    ghost tells_left = { λ _. tt };

    ghost tells_dropped = { λ _. tt };

    fn stranded(&self) -> Option<usize> {
        None
    }

    fn left_open(&self) -> usize {
        0
    }

    fn dropped_count(&self) -> u64 {
        0
    }

    fn failed_exports(&self) -> u64 {
        0
    }
}
