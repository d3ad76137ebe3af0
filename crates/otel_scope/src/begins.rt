//! What a span begins with.

ghost use Rattle.std.specs.Prelude.{◌≡◌, IfOk, IsOk};

use opentelemetry::trace::{SpanBuilder, SpanKind};
use std::alloc::{AllocError, Global};

/// What a span begins with: its name, its name and its kind, or a builder with all that a span may begin with.
pub trait Begins: Drop {
    ghost use Rattle.opentelemetry.specs.PlainSpanBuilder.{PlainSpanBuilder};

    ghost begins: { Self → PlainSpanBuilder };

    /// Those that need no memory.
    ghost is_ready: { Self → Type 0 } = { λ _. ⊥ };

    /// The builder of the span. `AllocError` where there is no memory for the name.
    fn into_builder(self, alloc: Global) -> Result<SpanBuilder, AllocError>
        ensures ok { IfOk result (λ builder. builder ≡ begins self) }
        ensures free { is_ready self → IsOk result };
}

impl Begins for &str {
    ghost use Rattle.opentelemetry.specs.PlainSpanBuilder.{named_builder};

    ghost begins = { λ name. named_builder name.now };

    fn into_builder(self, alloc: Global) -> Result<SpanBuilder, AllocError> {
        Ok(SpanBuilder::from_name(String::from_str(alloc, self)?))
    }
}

impl Begins for (&str, SpanKind) {
    ghost use Rattle.std.specs.Prelude.{Some};
    ghost use Rattle.opentelemetry.specs.PlainSpanBuilder.{named_builder};

    ghost begins = { λ begun. record (named_builder begun.0.now) { span_kind = Some begun.1 } };

    fn into_builder(self, alloc: Global) -> Result<SpanBuilder, AllocError> {
        let (name, kind) = self;
        Ok(SpanBuilder::from_name(String::from_str(alloc, name)?).with_kind(kind))
    }
}

impl Begins for SpanBuilder {
    ghost begins = { λ builder. builder };

    ghost is_ready = { λ _. Unit {0} };

    fn into_builder(self, _alloc: Global) -> Result<SpanBuilder, AllocError> {
        Ok(self)
    }
}
