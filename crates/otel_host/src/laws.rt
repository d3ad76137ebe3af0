//! The law of clocks that do not go back. The function does nothing; its contract is the law.

ghost use Rattle.std.specs.Prelude.{◌≡◌, ◌≤◌, ℕ};
ghost use Rattle.otel_host.specs.Clocks.{PlainHostClock, TellsLater};

use crate::ReadsClocks;

/// A `HostClock` does not go back: each reading tells a moment that is not before the last one, and is then the last one.
pub fn host_clocks_go_forward<C: ReadsClocks>()
    ensures { (old : PlainHostClock C) (moment : ℕ) (new : PlainHostClock C) → TellsLater C.monotonic old moment new
        → (old.last ≤ moment) × (new.last ≡ moment) }
{}
