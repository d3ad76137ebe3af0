//! What a command does, whatever its words: a span starts, is edited, is linked to another, tells its headers, ends or
//! gives its name up, or the provider is called. So a command that edits a span is known here alone, and to those who
//! read its line.

ghost use Rattle.std.specs.Prelude.{◌≡◌, [], ◌∷◌, IfOk, string_bytes};
ghost use Rattle.opentelemetry.specs.PlainValues.{plain_value};
ghost use Rattle.otel_pipeline.specs.SpanEdits.{plain_edit};
ghost use Rattle.otel_trace_lines.specs.Commands.{plain_command};
ghost use Rattle.otel_trace_session.specs.Actions.{action_of, attribute_edit, builder_of, event_edit, plain_action};

use opentelemetry::trace::{Event, SpanBuilder, SpanKind};
use opentelemetry::{Key, KeyValue, Moment, Value};
use otel_pipeline::trace::{Exception, SpanEdit};
use otel_trace_lines::Command;
use std::alloc::{AllocError, Global};

/// Where a span starts.
#[derive(Drop)]
pub(crate) enum Origin {
    Root,
    /// As a child of the span of this name.
    Parent(String),
    /// In the context that a `traceparent` says.
    Header(String),
}

/// A call of the provider.
#[derive(Drop)]
pub(crate) enum ProviderCall {
    Flush,
    Run(Moment),
    Shutdown,
}

/// What a command does. A span is named as commands name it.
#[derive(Drop)]
pub(crate) enum Action {
    Start {
        origin: Origin,
        span: String,
        builder: SpanBuilder,
        moment: Moment,
    },
    Edit {
        span: String,
        edit: SpanEdit,
    },
    Inject {
        span: String,
    },
    End {
        span: String,
        moment: Moment,
    },
    Call(ProviderCall),
    /// A link to the span of another name.
    Link {
        span: String,
        target: String,
    },
    /// An edit that takes memory to make: the event of an error.
    Exception {
        span: String,
        exception: Exception,
        moment: Moment,
    },
    /// The same: an event with one attribute.
    EventWithAttribute {
        span: String,
        name: String,
        moment: Moment,
        attribute: KeyValue,
    },
    /// The name of a span that is over is given up.
    Forget {
        span: String,
    },
}

/// What a command does.
pub(crate) fn action_of(alloc: Global, command: Command) -> Action
    ensures { plain_action result ≡ action_of (plain_command command) }
{
    match command {
        Command::Start {
            span,
            name,
            moment,
            kind,
        } => Action::Start {
            origin: Origin::Root,
            span,
            builder: builder_of(name, kind),
            moment,
        },
        Command::Child {
            span,
            parent,
            name,
            moment,
            kind,
        } => Action::Start {
            origin: Origin::Parent(parent),
            span,
            builder: builder_of(name, kind),
            moment,
        },
        Command::Remote {
            span,
            traceparent,
            name,
            moment,
            kind,
        } => Action::Start {
            origin: Origin::Header(traceparent),
            span,
            builder: builder_of(name, kind),
            moment,
        },
        Command::Attr { span, key, value } => Action::Edit {
            span,
            edit: attribute(key, Value::String(value)),
        },
        Command::Event { span, name, moment } => Action::Edit {
            span,
            edit: event_without_attributes(alloc, name, moment),
        },
        Command::Status { span, status } => Action::Edit {
            span,
            edit: SpanEdit::SetStatus(status),
        },
        Command::Inject { span } => Action::Inject { span },
        Command::End { span, moment } => Action::End { span, moment },
        Command::Flush => Action::Call(ProviderCall::Flush),
        Command::Run { moment } => Action::Call(ProviderCall::Run(moment)),
        Command::Shutdown => Action::Call(ProviderCall::Shutdown),
        Command::Int { span, key, value } => Action::Edit {
            span,
            edit: attribute(key, Value::I64(value)),
        },
        Command::Bool { span, key, value } => Action::Edit {
            span,
            edit: attribute(key, Value::Bool(value)),
        },
        Command::Float { span, key, value } => Action::Edit {
            span,
            edit: attribute(key, Value::F64(value)),
        },
        Command::Link { span, target } => Action::Link { span, target },
        Command::Exception {
            span,
            exception_type,
            moment,
            message,
        } => Action::Exception {
            span,
            exception: Exception::new(message).with_type(exception_type),
            moment,
        },
        Command::EventWithAttribute {
            span,
            name,
            moment,
            key,
            value,
        } => Action::EventWithAttribute {
            span,
            name,
            moment,
            attribute: KeyValue::new(Key::new(key), Value::String(value)),
        },
        Command::Forget { span } => Action::Forget { span },
    }
}

/// What a span of a name starts with: its kind, if one is given.
fn builder_of(name: String, kind: Option<SpanKind>) -> SpanBuilder
    ensures { result ≡ builder_of (string_bytes name) kind }
{
    let builder = SpanBuilder::from_name(name);
    match kind {
        Some(kind) => builder.with_kind(kind),
        None => builder,
    }
}

/// The edit that adds an event without attributes.
fn event_without_attributes(alloc: Global, name: String, moment: Moment) -> SpanEdit
    ensures { plain_edit result ≡ event_edit (string_bytes name) moment.0 [] }
{
    SpanEdit::AddEvent(Event::new(name, moment, Vec::new(alloc), 0))
}

/// The edit that adds an event with one attribute.
pub(crate) fn event_with_attribute(
    alloc: Global,
    name: String,
    moment: Moment,
    attribute: KeyValue,
) -> Result<SpanEdit, AllocError>
    ensures { IfOk result (λ edit. plain_edit edit
        ≡ event_edit (string_bytes name) moment.0 (attribute ∷ [])) }
{
    let attributes = vec![in alloc; attribute]?;
    Ok(SpanEdit::AddEvent(Event::new(name, moment, attributes, 0)))
}

/// The edit that sets an attribute.
fn attribute(key: String, value: Value) -> SpanEdit
    ensures { plain_edit result ≡ attribute_edit (string_bytes key) (plain_value value) }
{
    SpanEdit::SetAttribute(KeyValue::new(Key::new(key), value))
}
