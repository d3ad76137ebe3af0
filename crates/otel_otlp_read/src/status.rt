//! The status of a span: a code, by its number or its name, and the description of an error.

ghost use Rattle.std.specs.Prelude.{◌≡◌, IfOk};
ghost use Rattle.json.specs.Value.{value_view};
ghost use Rattle.opentelemetry.specs.PlainValues.{plain_status};
ghost use Rattle.otel_otlp_read.specs.Reading.{Gives};
ghost use Rattle.otel_otlp_read.specs.SpanParts.{code_member, named_code, numbered_code, status_in, status_of, status_with};

use crate::fault::{Fault, ReadError};
use crate::member::{given, object, text};
use crate::number::{is_integer, spells};
use json::Value;
use opentelemetry::trace::Status;
use std::alloc::{AllocError, Global};

/// The code of a status.
#[derive(Clone, Copy, Debug, PartialEq, Eq)]
enum StatusCode {
    Unset,
    Ok,
    Error,
}

/// A code by its number; one that is not known is unset.
#[tactic(auto, unfolding(crate::specs::SpanParts::numbered_code))]
fn numbered_code(text: &str) -> Result<StatusCode, ReadError>
    ensures { Gives (λ code. code) result (numbered_code text.now) }
{
    if spells(text, 1) {
        Ok(StatusCode::Ok)
    } else if spells(text, 2) {
        Ok(StatusCode::Error)
    } else if is_integer(text.as_bytes()) {
        Ok(StatusCode::Unset)
    } else {
        Err(ReadError::Fault(Fault::CodeForm))
    }
}

/// A code by its name.
#[tactic(auto, unfolding(crate::specs::SpanParts::named_code))]
fn named_code(text: &str) -> Result<StatusCode, ReadError>
    ensures { Gives (λ code. code) result (named_code text.now) }
{
    if text == "STATUS_CODE_OK" {
        Ok(StatusCode::Ok)
    } else if text == "STATUS_CODE_ERROR" {
        Ok(StatusCode::Error)
    } else if text == "STATUS_CODE_UNSET" {
        Ok(StatusCode::Unset)
    } else {
        Err(ReadError::Fault(Fault::CodeForm))
    }
}

/// The code of a status, unset where none is given.
fn code(status: &Value) -> Result<StatusCode, ReadError>
    ensures { Gives (λ code. code) result (code_member (value_view status.now)) }
{
    let Some(member) = given(status, "code") else {
        return Ok(StatusCode::Unset);
    };
    match member {
        Value::Number(text) => numbered_code(text),
        Value::String(text) => named_code(text),
        _ => Err(ReadError::Fault(Fault::CodeForm)),
    }
}

/// A status of a code; only an error has a description.
fn status_with(alloc: Global, code: StatusCode, message: &str) -> Result<Status, AllocError>
    ensures { IfOk result (λ status. plain_status status ≡ status_with code message.now) }
{
    match code {
        StatusCode::Unset => Ok(Status::Unset),
        StatusCode::Ok => Ok(Status::Ok),
        StatusCode::Error => Ok(Status::Error {
            description: String::from_str(alloc, message)?,
        }),
    }
}

/// The status that an object says.
#[tactic(auto, unfolding(crate::specs::SpanParts::status_in))]
fn status_in(alloc: Global, status: &Value) -> Result<Status, ReadError>
    ensures { Gives plain_status result (status_in (value_view status.now)) }
{
    object(status, Fault::StatusType)?;
    let code = code(status)?;
    let message = text(status, "message", Fault::MessageType)?;
    Ok(status_with(alloc, code, message)?)
}

/// The status of a span, unset where none is given.
pub(crate) fn status(alloc: Global, span: &Value) -> Result<Status, ReadError>
    ensures { Gives plain_status result (status_of (value_view span.now)) }
{
    match given(span, "status") {
        Some(status) => status_in(alloc, status),
        None => Ok(Status::Unset),
    }
}
