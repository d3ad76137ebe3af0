//! What a success says of the spans: how many were rejected (OTLP 1.7, "Partial Success").

ghost use Rattle.std.specs.Prelude.{◌≡◌, IfOk, OnErr, Some};
ghost use Rattle.json.specs.Value.{value_view};
ghost use Rattle.otel_otlp_http.specs.Success.{NeedsMemory, Rejects, SaysJson, count_of, rejected_in_json, rejected_of};

use crate::protobuf::rejected_in_protobuf;
use json::{Error, Scratch, Value};
use otel_http_post::read_count;
use otel_otlp_protobuf::Encoding;
use std::alloc::{AllocError, Global};

/// A count in JSON: a text of digits, as 64 bits are written there, or a number.
fn count(value: &Value<'_>) -> Option<u64>
    ensures { result ≡ count_of (Some (value_view value.now)) }
{
    match value {
        Value::Null => Some(0),
        Value::String(digits) | Value::Number(digits) => read_count(digits.as_bytes()),
        _ => None,
    }
}

/// How many spans a partial success in JSON says were rejected, where it is one.
fn rejected_by_partial(partial: &Value<'_>) -> Option<u64>
    ensures { result ≡ rejected_of (Some (value_view partial.now)) }
{
    match partial {
        Value::Null => Some(0),
        Value::Object(_) => match partial.get("rejectedSpans") {
            Some(spans) => count(spans),
            None => Some(0),
        },
        _ => None,
    }
}

/// How many spans an answer in JSON says were rejected, where it is a response.
fn rejected_by(response: &Value<'_>) -> Option<u64>
    ensures { result ≡ rejected_in_json (value_view response.now) }
{
    match response {
        Value::Object(_) => match response.get("partialSuccess") {
            Some(partial) => rejected_by_partial(partial),
            None => Some(0),
        },
        _ => None,
    }
}

/// How many spans the bytes of an answer in JSON say were rejected, where they are one.
fn rejected_by_text(alloc: Global, body: &[u8]) -> Result<Option<u64>, AllocError>
    ensures { IfOk result (SaysJson body.now) }
{
    let mut scratch = Scratch::new(alloc);
    match Value::from_slice(alloc, body, &mut scratch) {
        Ok(response) => Ok(rejected_by(&response)),
        Err(Error::OutOfMemory) => Err(AllocError),
        Err(_) => Ok(None),
    }
}

/// How many spans the body of a success says were rejected, where it reads. An empty one says none.
pub(crate) fn rejected_spans(
    alloc: Global,
    encoding: Encoding,
    body: &[u8],
) -> Result<Option<u64>, AllocError>
    ensures ok { IfOk result (Rejects encoding body.now) }
    ensures err { OnErr result (NeedsMemory encoding body.now) }
{
    if body.is_empty() {
        return Ok(Some(0));
    }
    match encoding {
        Encoding::Protobuf => Ok(rejected_in_protobuf(body)),
        Encoding::Json => rejected_by_text(alloc, body),
    }
}
