//! Why a document could not be read.

ghost use Rattle.std.specs.Prelude.{◌≡◌};
ghost use Rattle.otel_otlp_read.specs.Faults.{fault_text};

use std::alloc::{AllocError, AllocFailed};
use std::fmt;

/// What is wrong with a document: the first fault from its front, by the order in which members are read. Each displays
/// itself in words.
#[derive(Clone, Copy, Debug, PartialEq, Eq)]
pub enum Fault {
    /// The line, or the text, is no JSON, or not UTF-8.
    NotJson,
    RequestType,
    ResourceSpansMissing,
    ResourceSpansType,
    ResourceSpansItem,
    ResourceType,
    /// `instrumentationLibrarySpans` is there.
    ScopeSpansName,
    ScopeSpansType,
    ScopeSpansItem,
    SpansType,
    SpanType,
    TraceIdMissing,
    TraceIdForm,
    SpanIdMissing,
    SpanIdForm,
    ParentForm,
    NameType,
    KindForm,
    TimeForm,
    StatusType,
    CodeForm,
    MessageType,
    AttributesType,
    AttributeType,
    KeyType,
    EventsType,
    EventType,
    LinksType,
    LinkType,
    ValueType,
    ValueKinds,
    ValueDepth,
    StringForm,
    BoolForm,
    IntForm,
    DoubleForm,
    BytesForm,
    ListForm,
}

impl Fault {
    /// The fault in words.
    pub fn text(self) -> &'static str
        ensures { result.now ≡ fault_text self }
    {
        match self {
            Fault::NotJson => "it is no JSON",
            Fault::RequestType => "the document is no object",
            Fault::ResourceSpansMissing => "resourceSpans is missing",
            Fault::ResourceSpansType => "resourceSpans is no list",
            Fault::ResourceSpansItem => "an item of resourceSpans is no object",
            Fault::ResourceType => "a resource is no object",
            Fault::ScopeSpansName => "scopeSpans has an old name",
            Fault::ScopeSpansType => "scopeSpans is no list",
            Fault::ScopeSpansItem => "an item of scopeSpans is no object",
            Fault::SpansType => "spans is no list",
            Fault::SpanType => "a span is no object",
            Fault::TraceIdMissing => "a span has no traceId",
            Fault::TraceIdForm => "a traceId is 32 hexadecimal digits",
            Fault::SpanIdMissing => "a span has no spanId",
            Fault::SpanIdForm => "a spanId is 16 hexadecimal digits",
            Fault::ParentForm => "a parentSpanId is 16 hexadecimal digits or empty",
            Fault::NameType => "a name is no text",
            Fault::KindForm => "a kind is a number or a name as SPAN_KIND_SERVER",
            Fault::TimeForm => "a time is a whole number of 64 bits",
            Fault::StatusType => "a status is no object",
            Fault::CodeForm => "a status code is a number or a name as STATUS_CODE_ERROR",
            Fault::MessageType => "the message of a status is no text",
            Fault::AttributesType => "attributes is no list",
            Fault::AttributeType => "an attribute is no object",
            Fault::KeyType => "a key is no text",
            Fault::EventsType => "events is no list",
            Fault::EventType => "an event is no object",
            Fault::LinksType => "links is no list",
            Fault::LinkType => "a link is no object",
            Fault::ValueType => "a value is no object",
            Fault::ValueKinds => "a value has more than one kind",
            Fault::ValueDepth => "a value nests too deep",
            Fault::StringForm => "a stringValue is no text",
            Fault::BoolForm => "a boolValue is neither true nor false",
            Fault::IntForm => "an intValue is a whole number of 64 bits with a sign",
            Fault::DoubleForm => "a doubleValue is a number, NaN, Infinity or -Infinity",
            Fault::BytesForm => "a bytesValue is no text",
            Fault::ListForm => "an arrayValue or a kvlistValue is an object with a list of values",
        }
    }
}

impl fmt::Display for Fault {
    ghost use Rattle.std.specs.Prelude.{Some};
    ghost use Rattle.otel_otlp_read.specs.Faults.{fault_text};

    ghost output = { λ fault. Some (fault_text fault) };

    fn fmt<W: fmt::Write>(&self, f: &mut fmt::Formatter<W>) -> fmt::Result {
        f.write_str(self.text())
    }
}

/// Why reading stopped: at a fault, or because memory ran out.
#[derive(Clone, Copy, Debug, Drop, PartialEq, Eq)]
pub enum ReadError {
    Fault(Fault),
    OutOfMemory,
}

impl From<AllocError> for ReadError {
    ghost use Rattle.std.specs.Prelude.{◌≡◌};
    ghost use Rattle.otel_otlp_read.specs.declared.fault.ReadError.TheVariants.{OutOfMemory};

    ghost from_gives = { λ _ e. e ≡ OutOfMemory };

    fn from(_refused: AllocError) -> ReadError {
        ReadError::OutOfMemory
    }
}

impl<T: Drop> From<AllocFailed<T>> for ReadError {
    ghost use Rattle.std.specs.Prelude.{◌≡◌};
    ghost use Rattle.otel_otlp_read.specs.declared.fault.ReadError.TheVariants.{OutOfMemory};

    ghost from_gives = { λ _ e. e ≡ OutOfMemory };

    fn from(_refused: AllocFailed<T>) -> ReadError {
        ReadError::OutOfMemory
    }
}
