//! Numbers and ids: whole ones of 64 bits in a string or not, and in hexadecimal digits of either case.

ghost use Rattle.std.specs.Prelude.{◌≡◌, ◌<◌, ◌≤◌, ◌^◌, IfOk, IfSome, codes, length, option_map};
ghost use Rattle.std.specs.Char.{digit_value};
ghost use Rattle.json.specs.Value.{value_view};
ghost use Rattle.otel_otlp_read.specs.Numbers.{digits_after, id_number, id_of, is_integer, is_within, moment_of, number_text};
ghost use Rattle.otel_otlp_read.specs.Numbers.{parent_number, parent_of, spells, whole_number};
ghost use Rattle.otel_otlp_read.specs.Reading.{Gives};
ghost use Rattle.otel_otlp_read.specs.declared.fault.Fault.TheVariants as faults;

use crate::fault::{Fault, ReadError};
use crate::member::given;
use fast_float::Numeral;
use json::Value;
use opentelemetry::{Moment, SpanId, TraceId};

/// What a digit stands for, in either case; 36 for any other byte.
fn digit_value(byte: u8) -> u8
    ensures { result ≡ digit_value byte }
{
    match byte {
        b'0'..=b'9' => byte - b'0',
        b'A'..=b'Z' => byte - b'A' + 10,
        b'a'..=b'z' => byte - b'a' + 10,
        _ => 36,
    }
}

/// The number that digits in a radix spell; none where one of the bytes is no digit.
fn number_in(digits: &[u8], radix: u8) -> Option<u128>
    requires few { length digits.now ≤ 32 }
    requires small { radix ≤ 16 }
    ensures value { result ≡ digits_after radix 0 digits.now }
    ensures fits { IfSome result (λ n. n < 16 ^ length digits.now) }
{
    let mut number: u128 = 0;
    for digit in digits {
        let value = digit_value(*digit);
        if value >= radix {
            return None;
        }
        number = number * radix as u128 + value as u128;
    }
    Some(number)
}

/// The whole number of 64 bits that a text spells without a sign, maybe with a point or an exponent.
#[tactic(auto, unfolding(crate::specs::Numbers::whole_number))]
fn whole_number(bytes: &[u8]) -> Option<u64>
    ensures { result ≡ whole_number bytes.now }
{
    let numeral = Numeral::scan(bytes);
    if numeral.has_digits() && numeral.len() == bytes.len() {
        numeral.whole_u64()
    } else {
        None
    }
}

/// Whether a text spells this number.
pub(crate) fn spells(text: &str, number: u64) -> bool
    ensures { result ≡ spells number text.now }
{
    match whole_number(text.as_bytes()) {
        Some(found) => found == number,
        None => false,
    }
}

/// Whether there is a number, of at most this.
fn is_within(most: u64, number: Option<u64>) -> bool
    ensures { result ≡ is_within most number }
{
    match number {
        Some(number) => number <= most,
        None => false,
    }
}

/// Whether bytes spell a whole number of 64 bits with a sign, with a minus in front or not.
#[tactic(auto, unfolding(crate::specs::Numbers::is_integer))]
pub(crate) fn is_integer(bytes: &[u8]) -> bool
    ensures { result ≡ is_integer bytes.now }
{
    if !bytes.is_empty() && bytes[0] == b'-' {
        is_within(0x8000_0000_0000_0000, whole_number(&bytes[1..]))
    } else {
        is_within(0x7fff_ffff_ffff_ffff, whole_number(bytes))
    }
}

/// The number that exactly so many hexadecimal digits spell.
#[tactic(auto, unfolding(crate::specs::Numbers::id_number))]
fn id_number(bytes: &[u8], count: usize) -> Option<u128>
    requires { count ≤ 32 }
    ensures value { result ≡ id_number count bytes.now }
    ensures fits { IfSome result (λ n. n < 16 ^ count) }
{
    if bytes.len() != count {
        return None;
    }
    number_in(bytes, 16)
}

/// The text of a number, in a string or not.
pub(crate) fn number_text<'a>(value: &Value<'a>) -> Option<&'a str>
    ensures { option_map (λ t. t.now) result ≡ number_text (value_view value.now) }
{
    match value {
        Value::Number(text) => Some(*text),
        Value::String(text) => Some(*text),
        _ => None,
    }
}

/// The moment of a member, 0 where it is missing.
pub(crate) fn moment(object: &Value, name: &str) -> Result<Moment, ReadError>
    ensures { Gives (λ moment. moment.0) result (moment_of name.now (value_view object.now)) }
{
    let Some(member) = given(object, name) else {
        return Ok(Moment(0));
    };
    let Some(text) = number_text(member) else {
        return Err(ReadError::Fault(Fault::TimeForm));
    };
    match whole_number(text.as_bytes()) {
        Some(nanoseconds) => Ok(Moment(nanoseconds)),
        None => Err(ReadError::Fault(Fault::TimeForm)),
    }
}

/// The id of a member in so many digits; a member that is missing or null is the first fault, any other text the second.
fn id(
    object: &Value,
    name: &str,
    count: usize,
    missing: Fault,
    form: Fault,
) -> Result<u128, ReadError>
    requires { count ≤ 32 }
    ensures gives { Gives (λ n. n) result (id_of name.now count missing form (value_view object.now)) }
    ensures fits { IfOk result (λ n. n < 16 ^ count) }
{
    let Some(member) = given(object, name) else {
        return Err(ReadError::Fault(missing));
    };
    let Some(text) = member.as_str() else {
        return Err(ReadError::Fault(form));
    };
    match id_number(text.as_bytes(), count) {
        Some(number) => Ok(number),
        None => Err(ReadError::Fault(form)),
    }
}

/// The id of a span's trace.
pub(crate) fn trace_id(span: &Value) -> Result<TraceId, ReadError>
    ensures { Gives (λ id. id) result
        (id_of (codes "traceId") 32 faults.TraceIdMissing faults.TraceIdForm (value_view span.now)) }
{
    let number = id(
        span,
        "traceId",
        32,
        Fault::TraceIdMissing,
        Fault::TraceIdForm,
    )?;
    Ok(TraceId::from(number))
}

/// The id of a span.
pub(crate) fn span_id(span: &Value) -> Result<SpanId, ReadError>
    ensures { Gives (λ id. id) result
        (id_of (codes "spanId") 16 faults.SpanIdMissing faults.SpanIdForm (value_view span.now)) }
{
    let number = id(span, "spanId", 16, Fault::SpanIdMissing, Fault::SpanIdForm)?;
    Ok(SpanId::from(number as u64))
}

/// The number of a parent's id: zero where the text is empty.
fn parent_number(bytes: &[u8]) -> Option<u64>
    ensures { result ≡ parent_number bytes.now }
{
    if bytes.is_empty() {
        return Some(0);
    }
    match id_number(bytes, 16) {
        Some(number) => Some(number as u64),
        None => None,
    }
}

/// The id of a parent, zero where it is missing.
fn parent(object: &Value, name: &str) -> Result<SpanId, ReadError>
    ensures { Gives (λ id. id) result (parent_of name.now (value_view object.now)) }
{
    let Some(member) = given(object, name) else {
        return Ok(SpanId::INVALID);
    };
    let Some(text) = member.as_str() else {
        return Err(ReadError::Fault(Fault::ParentForm));
    };
    match parent_number(text.as_bytes()) {
        Some(number) => Ok(SpanId::from(number)),
        None => Err(ReadError::Fault(Fault::ParentForm)),
    }
}

/// The id of a span's parent, zero where it has none.
pub(crate) fn parent_span_id(span: &Value) -> Result<SpanId, ReadError>
    ensures { Gives (λ id. id) result (parent_of (codes "parentSpanId") (value_view span.now)) }
{
    parent(span, "parentSpanId")
}
