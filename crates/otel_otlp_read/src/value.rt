//! The text of a value of the protocol, `AnyValue`, in the form in which a value of this repository displays itself.

ghost use Rattle.std.specs.Prelude.{◌≡◌, ◌≤◌, false, map, option_and_then, option_map, string_bytes, true};
ghost use Rattle.std.specs.Float.{binary64};
ghost use Rattle.fast_float.specs.Parse.{parse_float};
ghost use Rattle.json.specs.Value.{value_view};
ghost use Rattle.otel_otlp_read.specs.AnyValue.{after_comma, closing, comma_joined, double_of, integer_text, kind_count};
ghost use Rattle.otel_otlp_read.specs.AnyValue.{is_float_word, is_number, one_if, one_kind, opening, shown_integer, shown_item};
ghost use Rattle.otel_otlp_read.specs.AnyValue.{shown_double, shown_list, shown_pair, shown_scalar, shown_string, shown_truth};
ghost use Rattle.otel_otlp_read.specs.AnyValue.{shown_bytes, shown_value, shown_with};
ghost use Rattle.otel_otlp_read.specs.Members.{given};
ghost use Rattle.otel_otlp_read.specs.Numbers.{number_text};
ghost use Rattle.otel_otlp_read.specs.Reading.{Gives, grown, joined};

use crate::fault::{Fault, ReadError};
use crate::member::{given, list, object, text};
use crate::number::{is_integer, number_text};
use json::Value;
use otel_float::FloatText;

/// How deep lists of values may nest, the value itself counted: less deep than JSON may.
pub(crate) const VALUE_DEPTH: usize = 64;

/// 1 where there is a member of a name.
fn one_if(object: &Value, name: &str) -> u8
    ensures is { result ≡ one_if (given name.now (value_view object.now)) }
    ensures small { result ≤ 1 }
{
    match given(object, name) {
        Some(_) => 1,
        None => 0,
    }
}

/// How many kinds a value has.
#[tactic(auto, unfolding(crate::specs::AnyValue::kind_count))]
fn kind_count(value: &Value) -> u8
    ensures { result ≡ kind_count (value_view value.now) }
{
    one_if(value, "stringValue")
        + one_if(value, "boolValue")
        + one_if(value, "intValue")
        + one_if(value, "doubleValue")
        + one_if(value, "bytesValue")
        + one_if(value, "arrayValue")
        + one_if(value, "kvlistValue")
}

/// Whether a value has one kind, or none.
fn one_kind(value: &Value) -> Result<(), ReadError>
    ensures { Gives (λ _. tt) result (one_kind (value_view value.now)) }
{
    if kind_count(value) > 1 {
        return Err(ReadError::Fault(Fault::ValueKinds));
    }
    Ok(())
}

/// Appends a text, maybe between quotes.
fn push_string(out: &mut String, value: &Value, is_quoted: bool) -> Result<(), ReadError>
    ensures { Gives (λ _. string_bytes out.new) result
        (grown (string_bytes out.old) (shown_string is_quoted (value_view value.now))) }
{
    let Some(text) = value.as_str() else {
        return Err(ReadError::Fault(Fault::StringForm));
    };
    if is_quoted {
        out.push_str("\"")?;
        out.push_str(text)?;
        out.push_str("\"")?;
    } else {
        out.push_str(text)?;
    }
    Ok(())
}

/// Appends a truth value in words.
fn push_truth(out: &mut String, value: &Value) -> Result<(), ReadError>
    ensures { Gives (λ _. string_bytes out.new) result
        (grown (string_bytes out.old) (shown_truth (value_view value.now))) }
{
    match value.as_bool() {
        Some(true) => out.push_str("true")?,
        Some(false) => out.push_str("false")?,
        None => return Err(ReadError::Fault(Fault::BoolForm)),
    }
    Ok(())
}

/// The text of an integer of 64 bits, in a string or not.
fn integer_text<'a>(value: &Value<'a>) -> Option<&'a str>
    ensures { option_map (λ t. t.now) result
        ≡ option_and_then integer_text (number_text (value_view value.now)) }
{
    match number_text(value) {
        Some(text) => {
            if is_integer(text.as_bytes()) {
                Some(text)
            } else {
                None
            }
        }
        None => None,
    }
}

/// Whether a text is one of the words for what JSON has no number for.
fn is_float_word(text: &str) -> bool
    ensures { result ≡ is_float_word text.now }
{
    text == "NaN" || text == "Infinity" || text == "-Infinity"
}

/// Whether a text in a string is a number of JSON.
fn is_number(text: &str) -> bool
    ensures { result ≡ is_number text.now }
{
    json::is_number(text)
}

/// The float that is nearest to what a text writes.
fn nearest(text: &str) -> Option<f64>
    ensures { result ≡ parse_float binary64 text.now }
{
    fast_float::parse(text).ok()
}

/// The float nearest to a number, in a string or not, or that of one of the words.
fn double_of(value: &Value) -> Option<f64>
    ensures { result ≡ double_of (value_view value.now) }
{
    match value {
        Value::Number(text) => nearest(text),
        Value::String(text) => {
            if is_float_word(text) || is_number(text) {
                nearest(text)
            } else {
                None
            }
        }
        _ => None,
    }
}

/// Appends the text of an integer.
fn push_integer(out: &mut String, value: &Value) -> Result<(), ReadError>
    ensures { Gives (λ _. string_bytes out.new) result
        (grown (string_bytes out.old) (shown_integer (value_view value.now))) }
{
    match integer_text(value) {
        Some(text) => out.push_str(text)?,
        None => return Err(ReadError::Fault(Fault::IntForm)),
    }
    Ok(())
}

/// Appends the text of a float.
fn push_double(out: &mut String, value: &Value) -> Result<(), ReadError>
    ensures { Gives (λ _. string_bytes out.new) result
        (grown (string_bytes out.old) (shown_double (value_view value.now))) }
{
    match double_of(value) {
        Some(number) => out.push_str(FloatText::new(number).as_str())?,
        None => return Err(ReadError::Fault(Fault::DoubleForm)),
    }
    Ok(())
}

/// Appends the base 64 of bytes.
fn push_bytes(out: &mut String, value: &Value) -> Result<(), ReadError>
    ensures { Gives (λ _. string_bytes out.new) result
        (grown (string_bytes out.old) (shown_bytes (value_view value.now))) }
{
    match value.as_str() {
        Some(text) => out.push_str(text)?,
        None => return Err(ReadError::Fault(Fault::BytesForm)),
    }
    Ok(())
}

/// Appends the text of a value that is no list; nothing where it has no kind.
#[tactic(auto, unfolding(crate::specs::AnyValue::shown_scalar, crate::specs::Members::own_name))]
fn push_scalar(out: &mut String, value: &Value, is_quoted: bool) -> Result<(), ReadError>
    ensures { Gives (λ _. string_bytes out.new) result
        (grown (string_bytes out.old) (shown_scalar is_quoted (value_view value.now))) }
{
    if let Some(text) = given(value, "stringValue") {
        return push_string(out, text, is_quoted);
    }
    if let Some(truth) = given(value, "boolValue") {
        return push_truth(out, truth);
    }
    if let Some(number) = given(value, "intValue") {
        return push_integer(out, number);
    }
    if let Some(number) = given(value, "doubleValue") {
        return push_double(out, number);
    }
    if let Some(bytes) = given(value, "bytesValue") {
        return push_bytes(out, bytes);
    }
    Ok(())
}

/// What stands in front of the items of a list.
fn opening(are_pairs: bool) -> &'static str
    ensures { result.now ≡ opening are_pairs }
{
    if are_pairs { "{" } else { "[" }
}

/// And what stands after them.
fn closing(are_pairs: bool) -> &'static str
    ensures { result.now ≡ closing are_pairs }
{
    if are_pairs { "}" } else { "]" }
}

/// Appends the text of a value, in which lists nest no deeper than this; a text by itself, or between quotes. On an error
/// a beginning of it may stand there.
#[cycle(value)]
pub(crate) fn push_value(
    out: &mut String,
    value: &Value,
    depth: usize,
    is_quoted: bool,
) -> Result<(), ReadError>
    ensures { Gives (λ _. string_bytes out.new) result
        (grown (string_bytes out.old) (shown_value depth is_quoted (value_view value.now))) }
{
    if depth == 0 {
        return Err(ReadError::Fault(Fault::ValueDepth));
    }
    push_with(out, value, depth - 1, is_quoted)
}

/// The same, where this is how deep the lists in its items may nest.
#[cycle(value)]
#[tactic(auto, unfolding(crate::specs::AnyValue::shown_with, crate::specs::Members::own_name))]
fn push_with(
    out: &mut String,
    value: &Value,
    depth: usize,
    is_quoted: bool,
) -> Result<(), ReadError>
    ensures { Gives (λ _. string_bytes out.new) result
        (grown (string_bytes out.old) (shown_with (shown_value depth true) is_quoted (value_view value.now))) }
{
    object(value, Fault::ValueType)?;
    one_kind(value)?;
    if let Some(values) = given(value, "arrayValue") {
        return push_list(out, values, depth, false);
    }
    if let Some(pairs) = given(value, "kvlistValue") {
        return push_list(out, pairs, depth, true);
    }
    push_scalar(out, value, is_quoted)
}

/// Appends a list of values, or of keys and values.
#[cycle(value)]
#[tactic(auto, unfolding(crate::specs::AnyValue::shown_list))]
fn push_list(
    out: &mut String,
    value: &Value,
    depth: usize,
    are_pairs: bool,
) -> Result<(), ReadError>
    ensures { Gives (λ _. string_bytes out.new) result
        (grown (string_bytes out.old) (shown_list (shown_value depth true) are_pairs (value_view value.now))) }
{
    object(value, Fault::ListForm)?;
    let items = list(value, "values", Fault::ListForm)?;
    out.push_str(opening(are_pairs))?;
    push_items(out, items, depth, are_pairs)?;
    out.push_str(closing(are_pairs))?;
    Ok(())
}

/// Appends items, joined by commas.
#[cycle(value)]
fn push_items(
    out: &mut String,
    items: &[Value],
    depth: usize,
    are_pairs: bool,
) -> Result<(), ReadError>
    ensures { Gives (λ _. string_bytes out.new) result (grown (string_bytes out.old)
        (comma_joined (shown_item (shown_value depth true) are_pairs) (map value_view items.now))) }
{
    match items {
        [] => Ok(()),
        [first, others @ ..] => {
            push_item(out, first, depth, are_pairs)?;
            push_others(out, others, depth, are_pairs)
        }
    }
}

/// Appends items, with a comma in front of each.
#[cycle(value)]
fn push_others(
    out: &mut String,
    items: &[Value],
    depth: usize,
    are_pairs: bool,
) -> Result<(), ReadError>
    ensures { Gives (λ _. string_bytes out.new) result (grown (string_bytes out.old)
        (joined (after_comma (shown_item (shown_value depth true) are_pairs)) (map value_view items.now))) }
{
    for item in items {
        out.push_str(",")?;
        push_item(out, item, depth, are_pairs)?;
    }
    Ok(())
}

/// Appends an item of a list.
#[cycle(value)]
fn push_item(out: &mut String, item: &Value, depth: usize, are_pairs: bool) -> Result<(), ReadError>
    ensures { Gives (λ _. string_bytes out.new) result (grown (string_bytes out.old)
        (shown_item (shown_value depth true) are_pairs (value_view item.now))) }
{
    if are_pairs {
        push_pair(out, item, depth, true)
    } else {
        push_value(out, item, depth, true)
    }
}

/// Appends a key, an equals sign and the text of a value.
#[cycle(value)]
pub(crate) fn push_pair(
    out: &mut String,
    pair: &Value,
    depth: usize,
    is_quoted: bool,
) -> Result<(), ReadError>
    ensures { Gives (λ _. string_bytes out.new) result
        (grown (string_bytes out.old) (shown_pair (shown_value depth is_quoted) (value_view pair.now))) }
{
    object(pair, Fault::AttributeType)?;
    let key = text(pair, "key", Fault::KeyType)?;
    out.push_str(key)?;
    out.push_str("=")?;
    match given(pair, "value") {
        Some(value) => push_value(out, value, depth, is_quoted),
        None => Ok(()),
    }
}
