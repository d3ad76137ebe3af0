//! What a span keeps of the texts among its attributes where the length of values has a limit (OpenTelemetry
//! specification, "Attribute Limits"). A length counts characters. Texts are cut in place, which takes no memory and
//! counts nothing as dropped; without a limit none is read.

ghost use Rattle.std.specs.Prelude.{◌≡◌, map, string_bytes, take, IsCharBoundary};
ghost use Rattle.opentelemetry.specs.PlainValues.{plain_value};
ghost use Rattle.otel_pipeline.specs.ValueLength as lengths;
ghost use Rattle.otel_pipeline.specs.ValueLength.{attribute_within, first_chars};

use opentelemetry::{Array, KeyValue, Value};
use otel_sampling::trace::SpanLimits;

/// Cuts each text of an attribute's value.
pub(crate) fn cut_attribute(attribute: &mut KeyValue, limits: &SpanLimits)
    ensures { attribute.new ≡ attribute_within limits.now attribute.old }
{
    if let Some(count) = limits.max_attribute_value_length {
        cut_value(&mut attribute.value, count);
    }
}

/// Cuts each text of the values of these attributes.
pub(crate) fn cut_each_attribute(attributes: &mut [KeyValue], limits: &SpanLimits)
    ensures { attributes.new ≡ map (attribute_within limits.now) attributes.old }
{
    if limits.max_attribute_value_length.is_none() {
        return;
    }
    for attribute in attributes.iter_mut() {
        cut_attribute(attribute, limits);
    }
}

fn cut_value(value: &mut Value, count: u32)
    ensures { plain_value value.new ≡ lengths.cut_value count (plain_value value.old) }
{
    match value {
        Value::String(text) => cut_text(text, count),
        Value::Array(Array::String(texts)) => cut_each_text(texts, count),
        _ => {}
    }
}

fn cut_each_text(texts: &mut [String], count: u32)
    ensures { map (λ text. string_bytes text) texts.new
        ≡ map (first_chars count) (map (λ text. string_bytes text) texts.old) }
{
    for text in texts.iter_mut() {
        cut_text(text, count);
    }
}

/// A text of no more bytes than it may have characters is not read.
fn cut_text(text: &mut String, count: u32)
    ensures { string_bytes text.new ≡ first_chars count (string_bytes text.old) }
{
    if text.len() > count as usize {
        let len = len_of_first_chars(text.as_str(), count);
        text.truncate(len);
    }
}

/// How many bytes the first characters of a text take.
fn len_of_first_chars(text: &str, count: u32) -> usize
    ensures front { take result text.now ≡ first_chars count text.now }
    ensures boundary { IsCharBoundary text.now result }
{
    let mut len = 0;
    for c in text.chars().take(count as usize) {
        len += c.len_utf8();
    }
    len
}
