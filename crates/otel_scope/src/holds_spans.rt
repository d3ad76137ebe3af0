//! What a scope is made of: what `Scope` asks of a type.

ghost use Rattle.std.specs.Prelude.{◌≡◌, IfOk, OnErr, OnOk};
ghost use Rattle.std.specs.Option.{option_map};
ghost use Rattle.otel_pipeline.specs.Exceptions.{exception_event};
ghost use Rattle.otel_pipeline.specs.SpanEdits.{plain_edit};
ghost use Rattle.otel_pipeline.specs.SpanHistory.{add_event};
ghost use Rattle.otel_scope.specs.Currents.{edited_here};
ghost use Rattle.otel_scope.specs.Working.{Becomes};

use crate::Current;
use opentelemetry::propagation::{Extractor, Injector};
use opentelemetry::trace::SpanBuilder;
use opentelemetry::{Context, Moment};
use otel_pipeline::trace::{Exception, SpanEdit};
use std::alloc::{AllocError, Global};

/// Holds the span that is current, and starts and ends spans. `Tracing` does; code that is traced calls `Scope`.
pub trait HoldsSpans {
    ghost use Rattle.std.specs.Prelude.{ℕ, Bool, Option};
    ghost use Rattle.opentelemetry.specs.Carrier.{Injection, Texts};
    ghost use Rattle.opentelemetry.specs.Plain.{PlainContext};
    ghost use Rattle.opentelemetry.specs.PlainSpanBuilder.{PlainSpanBuilder};
    ghost use Rattle.otel_scope.specs.declared.current.Current.{Current};

    /// The span that is current, and the context in which the next one starts.
    ghost current: { Self → Current };

    /// The scope with this current, and all else as it is.
    ghost with_current: { Self → Current → Self };

    /// A reading of its clock: the scope before it, the moment that it tells, and the scope after it.
    ghost tells: { Self → ℕ → Self → Type 0 };

    /// What a start does: the scope before it, what the span begins with, where there was memory for that, and the scope
    /// after it.
    ghost enters: { Self → Option PlainSpanBuilder → Self → Type 0 };

    /// What the end of the current span does: the scope before it, what is current afterwards, whether the work in the
    /// span failed, and the scope after it.
    ghost leaves: { Self → Current → Bool → Self → Type 0 };

    /// How its propagator injects a context, and extracts one.
    ghost injects: { Self → Injection };

    ghost extracts: { Self → PlainContext → Texts → PlainContext → Type 0 };

    fn alloc(&self) -> Global;

    /// The moment that is now, by the scope's clock.
    fn now(&mut self) -> Moment
        ensures tells { tells self.old result.0 self.new }
        ensures stays { current self.new ≡ current self.old };

    fn current(&self) -> &Current
        ensures { result.now ≡ current self.now };

    /// Another context for the next span, in place of this one.
    fn replace_context(&mut self, cx: Context) -> Context
        ensures given { result ≡ (current self.old).cx }
        ensures placed { Becomes current with_current (record (current self.old) { cx = cx }) self.old self.new };

    /// Starts a span in the context and makes it current. Where there is no memory for it, or there was none for what it
    /// begins with, no span is current, and one more is counted as lost. The answer is what was current.
    fn enter(&mut self, builder: Option<SpanBuilder>) -> Current
        ensures enters { enters self.old builder self.new }
        ensures outer { result ≡ current self.old };

    /// Ends the current span, whose work may have failed, and makes current what was outside of it.
    fn leave(&mut self, outer: Current, failed: bool)
        ensures leaves { leaves self.old outer failed self.new }
        ensures restores { current self.new ≡ outer };

    /// Edits the current span. Nothing happens where none is.
    fn edit(&mut self, edit: SpanEdit) -> Result<(), AllocError>
        ensures ok { OnOk result (Becomes current with_current (edited_here (plain_edit edit) (current self.old))
            self.old self.new) }
        ensures err { OnErr result (self.new ≡ self.old) };

    /// Records an exception that the current span met at this moment. Nothing happens where none is.
    fn add_exception(&mut self, exception: Exception, timestamp: Moment) -> Result<(), AllocError>
        ensures ok { OnOk result (Becomes current with_current
            (edited_here (add_event (exception_event exception timestamp.0)) (current self.old)) self.old self.new) }
        ensures err { OnErr result (self.new ≡ self.old) };

    /// Writes what of the current context travels into headers.
    fn inject_current<I: Injector>(&self, headers: &mut I) -> Result<(), AllocError>
        ensures { injects self.now (current self.now).cx (I.texts headers.old) result (I.texts headers.new) };

    /// The current context with what headers say in place of what it had.
    fn extract_here<X: Extractor>(&self, headers: &X) -> Result<Context, AllocError>
        ensures { IfOk result (λ found. extracts self.now (current self.now).cx (X.reads headers.now) found) };
}
