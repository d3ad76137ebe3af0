//! Errors as events of a span (OpenTelemetry semantic conventions, "Exceptions in spans").

ghost use Rattle.std.specs.Prelude.{◌≡◌, ◌≤◌, ◌++◌, IfOk, IfSome, IsNone, IsOk, OnErr, OnOk, Some, length, string_bytes, true};
ghost use Rattle.std.specs.Option.{option_map};
ghost use Rattle.opentelemetry.specs.Plain.{PlainEvent};
ghost use Rattle.otel_pipeline.specs.Exceptions.{RecordsError, exception_event, exception_of, text_attribute};
ghost use Rattle.otel_pipeline.specs.SpanHistory as history;

use crate::trace::{Span, SpanEdit};
use opentelemetry::trace::Event;
use opentelemetry::{Key, KeyValue, Moment, Value};
use std::alloc::{AllocError, Global};
use std::error::Error;
use std::marker::Model;

/// An error as a span records it.
#[derive(Debug, Drop)]
pub struct Exception {
    pub message: String,
    /// The name of the error's type, where it is known.
    pub exception_type: Option<String>,
    /// Where the error was met, as the language shows it.
    pub stacktrace: Option<String>,
}

impl Model for Exception {
    ghost use Rattle.std.specs.Prelude.{string_bytes};
    ghost use Rattle.std.specs.Option.{option_map};
    ghost use Rattle.opentelemetry.specs.Plain.{PlainEvent};
    ghost use Rattle.otel_pipeline.specs.Exceptions.{PlainException};

    ghost Value = { PlainException };

    ghost view = { λ exception. record {
      message = string_bytes exception.message;
      exception_type = option_map string_bytes exception.exception_type;
      stacktrace = option_map string_bytes exception.stacktrace;
    } };
}

impl Exception {
    /// An error of which the message alone is known.
    pub fn new(message: String) -> Exception
        ensures { result ≡ exception_of (string_bytes message) }
    {
        Exception {
            message,
            exception_type: None,
            stacktrace: None,
        }
    }

    /// With the name of its type, the attribute `exception.type`.
    pub fn with_type(mut self, exception_type: String) -> Exception
        ensures { result ≡ record self { exception_type = Some (string_bytes exception_type) } }
    {
        self.exception_type = Some(exception_type);
        self
    }

    /// With a trace of the calls it came from, the attribute `exception.stacktrace`.
    pub fn with_stacktrace(mut self, stacktrace: String) -> Exception
        ensures { result ≡ record self { stacktrace = Some (string_bytes stacktrace) } }
    {
        self.stacktrace = Some(stacktrace);
        self
    }

    /// The event of the error at this moment.
    fn into_event(self, alloc: Global, timestamp: Moment) -> Result<Event, AllocError>
        ensures { IfOk result (λ event. event ≡ exception_event self timestamp.0) }
    {
        let Exception {
            message,
            exception_type,
            stacktrace,
        } = self;
        let name = String::from_str(alloc, "exception")?;
        let mut attributes = Vec::new(alloc);
        push_text(&mut attributes, "exception.message", Some(message))?;
        push_text(&mut attributes, "exception.type", exception_type)?;
        push_text(&mut attributes, "exception.stacktrace", stacktrace)?;
        Ok(Event::new(name, timestamp, attributes, 0))
    }
}

fn push_text(
    attributes: &mut Vec<KeyValue>,
    key: &'static str,
    text: Option<String>,
) -> Result<(), AllocError>
    ensures { OnOk result (attributes.new.items
        ≡ attributes.old.items ++ text_attribute key.now (option_map string_bytes text)) }
{
    if let Some(text) = text {
        attributes.push(KeyValue::new(Key::from_static_str(key), Value::String(text)))?;
    }
    Ok(())
}

impl Span {
    /// Records an error that was met at this moment: an event of the name `exception`, whose attribute
    /// `exception.message` is the error's text. All else is as with `record_exception`.
    #[tactic(auto, using(crate::proofs::Uncounted::error_by_any_event))]
    pub fn record_error<E: Error>(
        &mut self,
        alloc: Global,
        error: &E,
        timestamp: Moment,
    ) -> Result<(), AllocError>
        ensures ok { OnOk result (RecordsError (E.output error.now) timestamp.0 self.old self.new) }
        ensures err { OnErr result (self.new ≡ self.old) }
        ensures edits { history.IsEdited self.old self.new }
        ensures free { IsNone self.old.recorded → IsOk result }
        ensures full { IfSome self.old.recorded
            (λ recorded. self.old.limits.max_events_per_span ≤ length recorded.events.events → IsOk result) }
    {
        if self.keeps_no_event() {
            return self.count_event(alloc, timestamp);
        }
        let message = error.to_string(alloc)?;
        self.record_exception(alloc, Exception::new(message), timestamp)
    }

    /// Records an error that was met at this moment: an event of the name `exception` with the attributes
    /// `exception.message`, `exception.type` and `exception.stacktrace`, as far as they are known. The event takes
    /// memory, and is cut as every other; over the limit of events it is only counted, which takes none. The span's
    /// status stays as it is. Nothing happens where the span is not recording.
    pub fn record_exception(
        &mut self,
        alloc: Global,
        exception: Exception,
        timestamp: Moment,
    ) -> Result<(), AllocError>
        ensures ok { OnOk result (self.new
            ≡ history.edited (history.add_event (exception_event exception timestamp.0)) self.old) }
        ensures err { OnErr result (self.new ≡ self.old) }
        ensures edits { history.IsEdited self.old self.new }
        ensures free { IsNone self.old.recorded → IsOk result }
        ensures full { IfSome self.old.recorded
            (λ recorded. self.old.limits.max_events_per_span ≤ length recorded.events.events → IsOk result) }
    {
        if self.keeps_no_event() {
            return self.count_event(alloc, timestamp);
        }
        let event = exception.into_event(alloc, timestamp)?;
        self.edit(SpanEdit::AddEvent(event))
    }

    /// Counts an event that is not kept, where the span records: what an empty event does is what any does.
    fn count_event(&mut self, alloc: Global, timestamp: Moment) -> Result<(), AllocError>
        requires { history.keeps_no_event self.old.limits self.old.recorded ≡ true }
        ensures counts { (event : PlainEvent) → self.new ≡ history.edited (history.add_event event) self.old }
        ensures edits { history.IsEdited self.old self.new }
        ensures ok { IsOk result }
    {
        self.add_event_with_timestamp(String::new(alloc), timestamp, Vec::new(alloc))
    }
}
