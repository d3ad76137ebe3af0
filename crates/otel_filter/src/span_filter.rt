//! The interface of filters: each decides on an ended span by its data alone, so that contracts know it as a function.

ghost use Rattle.std.specs.Prelude.{◌≡◌, Bool};
ghost use Rattle.otel_export.specs.PlainSpanData.{PlainSpanData};

use otel_export::trace::SpanData;

/// Decides which spans are exported.
pub trait SpanFilter: Drop {
    /// Whether it keeps a span.
    ghost keeps: { Self → PlainSpanData → Bool };

    fn keeps(&self, span: &SpanData) -> bool
        ensures { result ≡ keeps self.now span.now };
}
