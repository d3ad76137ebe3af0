//! What a host hands in, as the pipeline's own values: texts are bytes, and lists of texts one text with lengths.

ghost use Rattle.std.specs.Prelude.{◌≡◌, ◌≤◌, ◌<◌, Err, IfOk, IsOk, MatchResult, map, string_bytes};
ghost use Rattle.std.specs.Option.{option_map};
ghost use Rattle.std.specs.Str.{IsUtf8};
ghost use Rattle.opentelemetry.specs.PlainValues.{plain_status, plain_value};
ghost use Rattle.otel_embed.specs.HostValues.{AreTexts, IsStatus, IsValueOf, text_or_none, truth_of};

use crate::error::PipelineError;
use opentelemetry::trace::Status;
use opentelemetry::{Array, Key, KeyValue, Value};
use std::alloc::{AllocError, Global};

/// The value of an attribute.
#[derive(Clone, Copy, Debug)]
pub enum HostValue<'a> {
    Text(&'a [u8]),
    Integer(i64),
    Float(f64),
    Truth(bool),
    /// Texts that stand one after another, and how many bytes each has.
    Texts { texts: &'a [u8], lengths: &'a [u64] },
    Integers(&'a [i64]),
    Floats(&'a [f64]),
    /// 0 is false, and every other number true.
    Truths(&'a [u8]),
}

/// The bytes as a text, where they are one. Most are of ASCII, which takes a fifth of a check of UTF-8.
pub(crate) fn str_of(bytes: &[u8]) -> Result<&str, PipelineError>
    ensures { MatchResult result (λ text. text.now ≡ bytes.now)
        (λ error. (error ≡ PipelineError.NotUtf8) × ¬ (IsUtf8 bytes.now)) }
{
    if bytes.is_ascii() {
        return Ok(unsafe { str::from_utf8_unchecked(bytes) });
    }
    str::from_utf8(bytes).map_err(|_| PipelineError::NotUtf8)
}

/// The text that bytes are.
pub(crate) fn text_of(alloc: Global, bytes: &[u8]) -> Result<String, PipelineError>
    ensures { IfOk result (λ text. string_bytes text ≡ bytes.now) }
{
    Ok(String::from_str(alloc, str_of(bytes)?)?)
}

/// The same; no bytes are no text.
pub(crate) fn optional_text(alloc: Global, bytes: &[u8]) -> Result<Option<String>, PipelineError>
    ensures { IfOk result (λ text. option_map string_bytes text ≡ text_or_none bytes.now) }
{
    if bytes.is_empty() {
        return Ok(None);
    }
    Ok(Some(text_of(alloc, bytes)?))
}

/// The attribute of a key and a value.
pub(crate) fn attribute_of(
    alloc: Global,
    key: &[u8],
    value: HostValue<'_>,
) -> Result<KeyValue, PipelineError>
    ensures { IfOk result (λ attribute. (attribute.key ≡ key.now) × IsValueOf value.entry attribute.value) }
{
    let key = text_of(alloc, key)?;
    let value = value_of(alloc, value)?;
    Ok(KeyValue::new(Key::new(key), value))
}

fn value_of(alloc: Global, value: HostValue<'_>) -> Result<Value, PipelineError>
    ensures { IfOk result (λ made. IsValueOf value.entry (plain_value made)) }
{
    match value {
        HostValue::Text(bytes) => Ok(Value::String(text_of(alloc, bytes)?)),
        HostValue::Integer(number) => Ok(Value::I64(number)),
        HostValue::Float(number) => Ok(Value::F64(number)),
        HostValue::Truth(truth) => Ok(Value::Bool(truth)),
        HostValue::Texts { texts, lengths } => {
            Ok(Value::Array(Array::String(texts_of(alloc, texts, lengths)?)))
        }
        HostValue::Integers(numbers) => Ok(Value::Array(Array::I64(Vec::from_slice(
            alloc, numbers,
        )?))),
        HostValue::Floats(numbers) => Ok(Value::Array(Array::F64(Vec::from_slice(
            alloc, numbers,
        )?))),
        HostValue::Truths(bytes) => Ok(Value::Array(Array::Bool(truths_of(alloc, bytes)?))),
    }
}

/// The texts of these lengths; `BadArgument` where the lengths are not those of all of the bytes.
fn texts_of(alloc: Global, bytes: &[u8], lengths: &[u64]) -> Result<Vec<String>, PipelineError>
    ensures { IfOk result (λ texts. AreTexts bytes.now lengths.now (map string_bytes texts.items)) }
{
    let mut texts = Vec::new(alloc);
    let mut rest = bytes;
    for length in lengths {
        let Ok(length) = usize::try_from(*length) else {
            return Err(PipelineError::BadArgument);
        };
        let Some((text, after)) = rest.split_at_checked(length) else {
            return Err(PipelineError::BadArgument);
        };
        texts.push(text_of(alloc, text)?)?;
        rest = after;
    }
    if rest.is_empty() {
        Ok(texts)
    } else {
        Err(PipelineError::BadArgument)
    }
}

fn truths_of(alloc: Global, bytes: &[u8]) -> Result<Vec<bool>, AllocError>
    ensures { IfOk result (λ truths. truths.items ≡ map truth_of bytes.now) }
{
    let mut truths = Vec::with_capacity(alloc, bytes.len())?;
    for byte in bytes {
        truths.push(*byte != 0)?;
    }
    Ok(truths)
}

/// The status of a number: 0 unset, 1 well, 2 not, and only then with a description. `BadArgument` for another number.
pub(crate) fn status_of(
    alloc: Global,
    code: u32,
    description: &[u8],
) -> Result<Status, PipelineError>
    ensures ok { IfOk result (λ status. IsStatus code description.now (plain_status status)) }
    ensures free { code ≤ 1 → IsOk result }
    ensures bad { 2 < code → result ≡ Err PipelineError.BadArgument }
{
    match code {
        0 => Ok(Status::Unset),
        1 => Ok(Status::Ok),
        2 => Ok(Status::Error {
            description: text_of(alloc, description)?,
        }),
        _ => Err(PipelineError::BadArgument),
    }
}
