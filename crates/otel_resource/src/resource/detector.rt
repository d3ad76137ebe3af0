//! How a resource is found out: a detector looks at its source, as configuration or the host, and answers what it
//! saw. The caller makes the boxes and hands them to `ResourceBuilder`.

ghost use Rattle.std.specs.Prelude.{IfOk, IsOk};

use super::Resource;
use std::alloc::AllocError;

/// Finds out who produces telemetry.
pub trait ResourceDetector: Drop {
    ghost use Rattle.otel_resource.specs.Resource.{PlainResource};

    // What a detector may answer. One that promises nothing may leave this out.
    ghost detects: { Self → PlainResource → Type 0 } = { λ _ _. Unit {0} };

    // Holds of a detector that needs no memory. One that promises nothing may leave this out.
    ghost is_infallible: { Self → Type 0 } = { λ _. ⊥ };

    /// The resource that the source gives; the empty one where the source cannot be read or is not valid.
    fn detect(&self) -> Result<Resource, AllocError>
        ensures ok { IfOk result (λ resource. detects self.now resource) }
        ensures free { is_infallible self.now → IsOk result };
}

// The one place where a detector's type is not known.
impl ResourceDetector for Box<dyn ResourceDetector> {
    ghost detects = { λ b r. (ResourceDetector-box b).detects b.value r };

    ghost is_infallible = { λ b. (ResourceDetector-box b).is_infallible b.value };

    fn detect(&self) -> Result<Resource, AllocError> {
        let inner = &**self;
        inner.detect()
    }
}
