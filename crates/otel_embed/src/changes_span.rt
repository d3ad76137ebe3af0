//! What a host may do to a span: one edit, several attributes at once, or the record of an error.

ghost use Rattle.std.specs.Prelude.{◌≡◌, List, IsOk, OnErr, OnOk};
ghost use Rattle.otel_pipeline.specs.SpanHistory.{Edit, PlainSpan, after};

use opentelemetry::{KeyValue, Moment};
use otel_pipeline::trace::{Exception, Span, SpanEdit};
use std::alloc::{AllocError, Global};

/// A change of a span, as a list of edits.
pub(crate) trait ChangesSpan: Drop {
    /// The edits, in their order.
    ghost edits: { Self → List Edit };

    /// Whether they need no memory at this span.
    ghost needs_none: { Self → PlainSpan → Type 0 };

    /// Makes the edits, or none of them where there is no memory.
    fn apply(self, span: &mut Span) -> Result<(), AllocError>
        ensures ok { OnOk result (span.new ≡ after (edits self) span.old) }
        ensures err { OnErr result (span.new ≡ span.old) }
        ensures free { needs_none self span.old → IsOk result };
}

impl ChangesSpan for SpanEdit {
    ghost use Rattle.std.specs.Prelude.{[], ◌∷◌, IfSome};
    ghost use Rattle.otel_pipeline.specs.SpanEdits.{KeepsNoMore, plain_edit};

    ghost edits = { λ edit. plain_edit edit ∷ [] };

    ghost needs_none = { λ edit span. IfSome span.recorded (KeepsNoMore span.limits (plain_edit edit)) };

    fn apply(self, span: &mut Span) -> Result<(), AllocError> {
        span.edit(self)
    }
}

/// Attributes that are set in their order.
#[derive(Drop)]
pub(crate) struct Attributes(pub(crate) Vec<KeyValue>);

impl ChangesSpan for Attributes {
    ghost use Rattle.std.specs.Prelude.{◌≡◌, ◌⊎◌, [], IsNone, map};
    ghost use Rattle.otel_pipeline.specs.SpanHistory.{set_attribute};

    ghost edits = { λ attributes. map set_attribute attributes.0.items };

    ghost needs_none = { λ attributes span. IsNone span.recorded ⊎ (attributes.0.items ≡ []) };

    fn apply(self, span: &mut Span) -> Result<(), AllocError> {
        span.set_attributes(self.0)
    }
}

/// An error that was met at a moment.
#[derive(Drop)]
pub(crate) struct MetError {
    pub(crate) alloc: Global,
    pub(crate) exception: Exception,
    pub(crate) moment: Moment,
}

impl ChangesSpan for MetError {
    ghost use Rattle.std.specs.Prelude.{[], ◌∷◌, IsNone};
    ghost use Rattle.otel_pipeline.specs.Exceptions.{exception_event};
    ghost use Rattle.otel_pipeline.specs.SpanHistory.{add_event};

    ghost edits = { λ met. add_event (exception_event met.exception met.moment.0) ∷ [] };

    ghost needs_none = { λ _ span. IsNone span.recorded };

    fn apply(self, span: &mut Span) -> Result<(), AllocError> {
        span.record_exception(self.alloc, self.exception, self.moment)
    }
}
