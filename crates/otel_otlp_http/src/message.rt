//! What the other side says of a failure, in the body of its answer (OTLP 1.7, "Failures" and "Partial Success"), which
//! has the encoding of the request. The body of anyone else, as the page of a proxy, says nothing.

ghost use Rattle.std.specs.Prelude.{◌≡◌, IfOk, OnErr, option_map};
ghost use Rattle.std.specs.Result.{result_map_both};
ghost use Rattle.json.specs.Value.{value_view};
ghost use Rattle.otel_protobuf.specs.Held.{raw_of};
ghost use Rattle.otel_otlp_protobuf.specs.declared.encoding.Encoding.TheVariants as encodings;
ghost use Rattle.otel_otlp_http.specs.Messages.{
  HasReason,
  IsShown,
  Reads,
  ReadsJson,
  bytes_after,
  field_bytes,
  json_message,
  message_for,
  protobuf_message,
  shown_if_any,
};

use crate::failure::ExportFailure;
use crate::reason::{Reason, shown};
use json::{Error, Scratch, Value};
use otel_http_post::Answer;
use otel_otlp_protobuf::Encoding;
use otel_protobuf::{Held, read_field};
use std::alloc::{AllocError, Global};
use std::str;

/// Which message of an answer says why.
#[derive(Clone, Copy)]
enum Message {
    /// That of a `google.rpc.Status`, which is the body of an answer that is no success.
    OfStatus,
    /// That of the partial success in an `ExportTraceServiceResponse`.
    OfPartialSuccess,
}

/// Which message says why, where an answer was read.
fn message_for(failure: Option<ExportFailure>) -> Option<Message>
    ensures { result ≡ message_for failure }
{
    match failure {
        Some(ExportFailure::Retryable { .. } | ExportFailure::Refused { .. }) => {
            Some(Message::OfStatus)
        }
        Some(ExportFailure::PartlyRejected { .. }) => Some(Message::OfPartialSuccess),
        _ => None,
    }
}

/// The bytes of a field that has this number, or those before.
fn bytes_after<'a>(wanted: u64, before: &'a [u8], number: u64, held: Held<'a>) -> &'a [u8]
    ensures { result.now ≡ bytes_after wanted before.now (number, raw_of held.entry) }
{
    match held {
        Held::Sized(bytes) if number == wanted => bytes,
        _ => before,
    }
}

/// The bytes of the last field that has this number, in a message that reads.
fn field_bytes(wanted: u64, bytes: &[u8]) -> Option<&[u8]>
    ensures { option_map (λ bs. bs.now) result ≡ field_bytes wanted bytes.now }
{
    let mut last = &bytes[..0];
    let mut rest = bytes;
    // Each field takes a byte at least.
    let mut more = bytes.len();
    'fields: while !rest.is_empty() {
        if more == 0 {
            return None;
        }
        more -= 1;
        let (number, held, after) = read_field(rest)?;
        last = bytes_after(wanted, last, number, held);
        rest = after;
    }
    Some(last)
}

/// The message in a body of protobuf.
fn protobuf_message(message: Message, body: &[u8]) -> Option<&[u8]>
    ensures { option_map (λ bs. bs.now) result ≡ protobuf_message message body.now }
{
    match message {
        Message::OfStatus => field_bytes(2, body),
        Message::OfPartialSuccess => field_bytes(2, field_bytes(1, body)?),
    }
}

/// Bytes as they are shown, where they are a text.
fn shown_bytes(bytes: &[u8]) -> Reason
    ensures { IsShown bytes.now result.bytes }
{
    match str::from_utf8(bytes) {
        Ok(text) => shown(text),
        Err(_) => Reason::new(),
    }
}

/// The message in a body of protobuf, as it is shown.
fn shown_protobuf(message: Message, body: &[u8]) -> Reason
    ensures { Reads encodings.Protobuf message body.now result.bytes }
{
    match protobuf_message(message, body) {
        Some(bytes) => shown_bytes(bytes),
        None => Reason::new(),
    }
}

/// The message in a body of JSON.
fn json_message<'a>(message: Message, body: &'a Value<'_>) -> Option<&'a str>
    ensures { option_map (λ text. text.now) result ≡ json_message message (value_view body.now) }
{
    match message {
        Message::OfStatus => body.get("message")?.as_str(),
        Message::OfPartialSuccess => body.get("partialSuccess")?.get("errorMessage")?.as_str(),
    }
}

/// A text as it is shown, if there is one.
fn shown_if_any(text: Option<&str>) -> Reason
    ensures { result.bytes ≡ shown_if_any (option_map (λ text. text.now) text.entry) }
{
    match text {
        Some(text) => shown(text),
        None => Reason::new(),
    }
}

/// The message in a body of JSON, as it is shown.
fn shown_json(alloc: Global, message: Message, body: &[u8]) -> Result<Reason, AllocError>
    ensures { IfOk result (λ reason. ReadsJson message body.now reason.bytes) }
{
    let mut scratch = Scratch::new(alloc);
    match Value::from_slice(alloc, body, &mut scratch) {
        Ok(value) => Ok(shown_if_any(json_message(message, &value))),
        Err(Error::OutOfMemory) => Err(AllocError),
        Err(_) => Ok(Reason::new()),
    }
}

/// The message in a body, as it is shown.
fn read_message(
    alloc: Global,
    encoding: Encoding,
    message: Message,
    body: &[u8],
) -> Result<Reason, AllocError>
    ensures ok { IfOk result (λ reason. Reads encoding message body.now reason.bytes) }
    ensures err { OnErr result (encoding ≡ encodings.Json) }
{
    match encoding {
        Encoding::Protobuf => Ok(shown_protobuf(message, body)),
        Encoding::Json => shown_json(alloc, message, body),
    }
}

/// What an answer says of a failure, as it is shown. It is empty where it says nothing, and where there is no memory to
/// read JSON.
pub(crate) fn reason_for(
    alloc: Global,
    encoding: Encoding,
    answer: &Answer,
    failure: Option<ExportFailure>,
) -> Reason
    ensures { HasReason encoding (result_map_both (λ body. body.items) (λ error. error) answer.now.body) failure
        result.bytes }
{
    let Some(message) = message_for(failure) else {
        return Reason::new();
    };
    let Ok(body) = &answer.body else {
        return Reason::new();
    };
    match read_message(alloc, encoding, message, body) {
        Ok(reason) => reason,
        Err(_) => Reason::new(),
    }
}
