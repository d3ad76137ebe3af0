//! The kind of a span, by its number or its name.

ghost use Rattle.std.specs.Prelude.{◌≡◌};
ghost use Rattle.json.specs.Value.{value_view};
ghost use Rattle.otel_otlp_read.specs.Reading.{Gives};
ghost use Rattle.otel_otlp_read.specs.SpanParts.{kind_of, named_kind, numbered_kind};

use crate::fault::{Fault, ReadError};
use crate::member::given;
use crate::number::{is_integer, spells};
use json::Value;
use opentelemetry::trace::SpanKind;

/// A kind by its number; one that is not known, as one that is not said, is internal.
#[tactic(auto, unfolding(crate::specs::SpanParts::numbered_kind))]
fn numbered_kind(text: &str) -> Result<SpanKind, ReadError>
    ensures { Gives (λ kind. kind) result (numbered_kind text.now) }
{
    if spells(text, 2) {
        Ok(SpanKind::Server)
    } else if spells(text, 3) {
        Ok(SpanKind::Client)
    } else if spells(text, 4) {
        Ok(SpanKind::Producer)
    } else if spells(text, 5) {
        Ok(SpanKind::Consumer)
    } else if is_integer(text.as_bytes()) {
        Ok(SpanKind::Internal)
    } else {
        Err(ReadError::Fault(Fault::KindForm))
    }
}

/// A kind by its name.
#[tactic(auto, unfolding(crate::specs::SpanParts::named_kind))]
fn named_kind(text: &str) -> Result<SpanKind, ReadError>
    ensures { Gives (λ kind. kind) result (named_kind text.now) }
{
    if text == "SPAN_KIND_SERVER" {
        Ok(SpanKind::Server)
    } else if text == "SPAN_KIND_CLIENT" {
        Ok(SpanKind::Client)
    } else if text == "SPAN_KIND_PRODUCER" {
        Ok(SpanKind::Producer)
    } else if text == "SPAN_KIND_CONSUMER" {
        Ok(SpanKind::Consumer)
    } else if text == "SPAN_KIND_INTERNAL" {
        Ok(SpanKind::Internal)
    } else if text == "SPAN_KIND_UNSPECIFIED" {
        Ok(SpanKind::Internal)
    } else {
        Err(ReadError::Fault(Fault::KindForm))
    }
}

/// The kind of a span, internal where none is given.
pub(crate) fn kind(span: &Value) -> Result<SpanKind, ReadError>
    ensures { Gives (λ kind. kind) result (kind_of (value_view span.now)) }
{
    let Some(member) = given(span, "kind") else {
        return Ok(SpanKind::Internal);
    };
    match member {
        Value::Number(text) => numbered_kind(text),
        Value::String(text) => named_kind(text),
        _ => Err(ReadError::Fault(Fault::KindForm)),
    }
}
