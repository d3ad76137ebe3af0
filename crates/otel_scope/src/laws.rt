//! The law of spans within spans. Each function does nothing; its contract is the law.

ghost use Rattle.std.specs.Prelude.{ℕ};
ghost use Rattle.otel_scope.specs.Nesting.{GoesForward, LieWithin, Makes, MakesAround, SpansMade, WorksAround};
ghost use Rattle.otel_scope.specs.declared.tracing.Tracing.{Tracing};

use otel_pipeline::trace::{Now, SpanProcessor};
use otel_sampling::trace::{GivesIds, ShouldSample};

/// At a clock that does not go back the interval of each span lies within that of the span in whose work it was made,
/// however deep, and no span ends before it starts. A span that is given a moment of its own to start at is left out.
pub fn spans_nest<P: SpanProcessor, S: ShouldSample, G: GivesIds, C: Now, T>()
    ensures { (last : C → ℕ) (spans : SpansMade) (old new : Tracing P S G C T) → GoesForward C.tells last
        → Makes P.SpanProcessor S.ShouldSample G.GivesIds C.tells last spans old new
        → LieWithin (last old.clock) (last new.clock) spans }
{}

/// Work in a span, which is a start, the work and an end, makes that span, and in it the spans that the work makes; those
/// alone where the span was lost, or is not current any more when the work has ended.
pub fn works_make_spans<P: SpanProcessor, S: ShouldSample, G: GivesIds, C: Now, T>()
    ensures { (last : C → ℕ) (within : SpansMade) (old new : Tracing P S G C T) → GoesForward C.tells last
        → WorksAround P.SpanProcessor S.ShouldSample G.GivesIds C.tells last within old new
        → MakesAround P.SpanProcessor S.ShouldSample G.GivesIds C.tells last within old new }
{}
