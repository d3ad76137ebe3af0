//! The scope of a traced function, which is its one argument for tracing.

ghost use Rattle.std.specs.Prelude.{◌≡◌, OnErr, OnOk, string_bytes};
ghost use Rattle.opentelemetry.specs.Plain.{error};
ghost use Rattle.opentelemetry.specs.PlainContexts.{current_span_context};
ghost use Rattle.opentelemetry.specs.PlainValues.{plain_status};
ghost use Rattle.otel_pipeline.specs.Exceptions.{exception_event};
ghost use Rattle.otel_pipeline.specs.SpanEdits.{new_event, new_link};
ghost use Rattle.otel_pipeline.specs.SpanHistory.{add_event, add_link, set_attribute, set_status, update_name};
ghost use Rattle.otel_scope.specs.Currents.{records_here, with_baggage};
ghost use Rattle.otel_scope.specs.Working.{Becomes, EditsHere, EditsNow, RecordsHere, Works, WorksBelow, WorksIn, WorksInSpan};

use crate::{Begins, HoldsSpans, IntoValue};
use opentelemetry::baggage::Baggage;
use opentelemetry::propagation::{Extractor, Injector};
use opentelemetry::trace::{Event, Link, SpanBuilder, SpanContext, Status};
use opentelemetry::{Context, Key, KeyValue};
use otel_pipeline::trace::{Exception, SpanEdit};
use std::alloc::AllocError;
use std::error::Error;

/// In which the current span and its context travel. What edits does so at the current span; where none is, or it does
/// not record, nothing happens: no text is made and no clock is read. All that `HoldsSpans` is a scope.
pub trait Scope: HoldsSpans {
    /// Does the work in a span: a child of the current one, or a root where none is. It is current in the work, and ends
    /// whatever that answers; where that is an error its status is one, unless it was set. Then what was current is so
    /// again.
    ///
    /// The work is always done. Where there is no memory for the span it is counted as lost; then the edits of the work
    /// are made nowhere, and the spans inside are children of the span outside.
    fn in_span<B: Begins, F, T, E>(&mut self, begun: B, work: F) -> Result<T, E>
    where
        F: FnOnce(&mut Self) -> Result<T, E>,
        requires { F.IsAlwaysCallable work }
        ensures works { WorksInSpan Self.current Self.enters Self.leaves F.FnOnce (B.begins begun) (B.is_ready begun)
            self.old work result self.new }
        ensures restores { Self.current self.new ≡ Self.current self.old }
    {
        let builder = begun.into_builder(self.alloc()).ok();
        work_inside(self, builder, work)
    }

    /// As `in_span`, below the span that these headers name, which may be of another process, and with the baggage that
    /// they carry, as the scope's propagator reads them. Where they name none it is as `in_span` alone, and where there
    /// is no memory to read them the span is lost as well.
    fn continue_from<X: Extractor, B: Begins, F, T, E>(
        &mut self,
        headers: &X,
        begun: B,
        work: F,
    ) -> Result<T, E>
    where
        F: FnOnce(&mut Self) -> Result<T, E>,
        requires { F.IsAlwaysCallable work }
        ensures works { WorksBelow Self.current Self.enters Self.leaves F.FnOnce Self.with_current
            (λ cx caller. Self.extracts self.old cx (X.reads headers.now) caller) (B.begins begun) self.old work result
            self.new }
        ensures restores { Self.current self.new ≡ Self.current self.old }
    {
        match self.extract_here(headers) {
            Ok(caller) => {
                let builder = begun.into_builder(self.alloc()).ok();
                work_in_context(self, caller, builder, work)
            }
            Err(_) => work_inside(self, None, work),
        }
    }

    /// Writes who the current span is, and what baggage goes with it, into headers, for `continue_from`: all that the
    /// scope's propagator writes.
    fn inject<I: Injector>(&self, headers: &mut I) -> Result<(), AllocError>
        ensures { Self.injects self.now (Self.current self.now).cx (I.texts headers.old) result (I.texts headers.new) }
    {
        self.inject_current(headers)
    }

    /// Who the current span is, or the span outside, where the current one is lost. The empty one where none is.
    fn span_context(&self) -> &SpanContext
        ensures { result.now ≡ current_span_context (Self.current self.now).cx }
    {
        self.current().cx.span_context()
    }

    /// Whether edits reach the current span.
    fn is_recording(&self) -> bool
        ensures { result ≡ records_here (Self.current self.now) }
    {
        self.current().is_recording()
    }

    /// Sets an attribute. Where its key was set before, both stand in the span.
    fn set_attribute<V: IntoValue>(&mut self, key: &'static str, value: V) -> Result<(), AllocError>
        ensures { EditsHere Self.current Self.with_current
            (set_attribute (record { key = key.now; value = V.value value })) self.old result self.new }
    {
        if !self.is_recording() {
            return Ok(());
        }
        let value = value.into_value(self.alloc())?;
        self.edit(SpanEdit::SetAttribute(KeyValue::new(Key::from_static_str(key), value)))
    }

    /// The same of an attribute that is made already.
    fn set(&mut self, attribute: KeyValue) -> Result<(), AllocError>
        ensures { EditsHere Self.current Self.with_current (set_attribute attribute) self.old result self.new }
    {
        if !self.is_recording() {
            return Ok(());
        }
        self.edit(SpanEdit::SetAttribute(attribute))
    }

    /// An event of this name, which happens now.
    fn add_event(&mut self, name: &str, attributes: Vec<KeyValue>) -> Result<(), AllocError>
        ensures { EditsNow Self.current Self.with_current Self.tells
            (λ moment. add_event (new_event name.now moment attributes.items)) self.old result self.new }
    {
        if !self.is_recording() {
            return Ok(());
        }
        let name = String::from_str(self.alloc(), name)?;
        let event = Event::new(name, self.now(), attributes, 0);
        self.edit(SpanEdit::AddEvent(event))
    }

    /// Points to another span.
    fn add_link(
        &mut self,
        span_context: SpanContext,
        attributes: Vec<KeyValue>,
    ) -> Result<(), AllocError>
        ensures { EditsHere Self.current Self.with_current (add_link (new_link span_context attributes.items)) self.old
            result self.new }
    {
        if !self.is_recording() {
            return Ok(());
        }
        self.edit(SpanEdit::AddLink(Link::new(span_context, attributes, 0)))
    }

    /// Gives the current span another name.
    fn update_name(&mut self, name: &str) -> Result<(), AllocError>
        ensures { EditsHere Self.current Self.with_current (update_name name.now) self.old result self.new }
    {
        if !self.is_recording() {
            return Ok(());
        }
        let name = String::from_str(self.alloc(), name)?;
        self.edit(SpanEdit::UpdateName(name))
    }

    /// Says how the operation went; the greatest status stays, in whatever order they come.
    fn set_status(&mut self, status: Status) -> Result<(), AllocError>
        ensures { EditsHere Self.current Self.with_current (set_status (plain_status status)) self.old result self.new }
    {
        if !self.is_recording() {
            return Ok(());
        }
        self.edit(SpanEdit::SetStatus(status))
    }

    /// Says that the operation failed, and why.
    fn set_error(&mut self, description: &str) -> Result<(), AllocError>
        ensures { EditsHere Self.current Self.with_current (set_status (error description.now)) self.old result
            self.new }
    {
        if !self.is_recording() {
            return Ok(());
        }
        let description = String::from_str(self.alloc(), description)?;
        self.edit(SpanEdit::SetStatus(Status::Error { description }))
    }

    /// An error that is met now, as an event of the name `exception`, which has its text (OpenTelemetry semantic
    /// conventions, "Exceptions in spans"). The status stays as it is.
    fn record_error<R: Error>(&mut self, error: &R) -> Result<(), AllocError>
        ensures { RecordsHere Self.current Self.with_current Self.tells (R.output error.now) self.old result self.new }
    {
        if !self.is_recording() {
            return Ok(());
        }
        let message = error.to_string(self.alloc())?;
        self.record_exception(Exception::new(message))
    }

    /// The same with the error's type and its stack trace, as far as they are known.
    fn record_exception(&mut self, exception: Exception) -> Result<(), AllocError>
        ensures { EditsNow Self.current Self.with_current Self.tells
            (λ moment. add_event (exception_event exception moment)) self.old result self.new }
    {
        if !self.is_recording() {
            return Ok(());
        }
        let now = self.now();
        self.add_exception(exception, now)
    }

    /// What goes with the current context to all spans inside, and with their requests.
    fn baggage(&self) -> &Baggage
        ensures { result.now ≡ (Self.current self.now).cx.baggage }
    {
        self.current().cx.baggage()
    }

    /// Hands on this baggage in place of that, until the current span ends.
    fn set_baggage(&mut self, baggage: Baggage) -> Result<(), AllocError>
        ensures ok { OnOk result (Becomes Self.current Self.with_current
            (with_baggage baggage (Self.current self.old)) self.old self.new) }
        ensures err { OnErr result (self.new ≡ self.old) }
    {
        let cx = self.current().cx.with_baggage(baggage)?;
        let _old = self.replace_context(cx);
        Ok(())
    }
}

impl<S: HoldsSpans> Scope for S {}

/// Asks for a span, does the work with what comes of that, and ends what is then current.
fn work_inside<S: HoldsSpans, F, T, E>(
    scope: &mut S,
    builder: Option<SpanBuilder>,
    work: F,
) -> Result<T, E>
where
    F: FnOnce(&mut S) -> Result<T, E>,
    requires { F.IsAlwaysCallable work }
    ensures works { Works S.current S.enters S.leaves F.FnOnce scope.old builder work result scope.new }
    ensures restores { S.current scope.new ≡ S.current scope.old }
{
    let outer = scope.enter(builder);
    let answer = work(scope);
    scope.leave(outer, answer.is_err());
    answer
}

/// The same in another context; afterwards the current one is what it was.
fn work_in_context<S: HoldsSpans, F, T, E>(
    scope: &mut S,
    cx: Context,
    builder: Option<SpanBuilder>,
    work: F,
) -> Result<T, E>
where
    F: FnOnce(&mut S) -> Result<T, E>,
    requires { F.IsAlwaysCallable work }
    ensures works { WorksIn S.current S.enters S.leaves F.FnOnce S.with_current cx scope.old builder work result
        scope.new }
    ensures restores { S.current scope.new ≡ S.current scope.old }
{
    let outside = scope.replace_context(cx);
    let answer = work_inside(scope, builder, work);
    let _inside = scope.replace_context(outside);
    answer
}
