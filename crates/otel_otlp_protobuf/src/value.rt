//! Attributes: keys, values and lists of them.

ghost use Rattle.std.specs.Prelude.{string_bytes};
ghost use Rattle.opentelemetry.specs.PlainValues.{plain_array, plain_value};
ghost use Rattle.otel_otlp_protobuf.specs.NamedValues.{array_members, attribute_members, float_members, integer_members};
ghost use Rattle.otel_otlp_protobuf.specs.NamedValues.{pair_members, text_members, truth_members, value_members};
ghost use Rattle.otel_otlp_protobuf.specs.Said.{message_fields};

use crate::message::{Message, nested, repeated};
use opentelemetry::{Array, Key, KeyValue, Value};
use otel_protobuf::Sink;
use std::alloc::Global;
use std::num::f64_to_bits_with_nan;

// A truth, an integer, a text and a float as an `AnyValue` each.
impl Message for bool {
    ghost fields = { λ truth. message_fields (truth_members truth) };

    fn write(&self, _alloc: Global, sink: &mut Sink) {
        sink.varint_field(2, *self as u64);
    }
}

impl Message for i64 {
    ghost fields = { λ number. message_fields (integer_members number) };

    fn write(&self, _alloc: Global, sink: &mut Sink) {
        sink.varint_field(3, self.cast_unsigned());
    }
}

impl Message for String {
    ghost fields = { λ text. message_fields (text_members (string_bytes text)) };

    fn write(&self, _alloc: Global, sink: &mut Sink) {
        sink.bytes_field(1, self.as_bytes());
    }
}

impl Message for f64 {
    ghost fields = { λ number. message_fields (float_members number) };

    fn write(&self, _alloc: Global, sink: &mut Sink) {
        sink.fixed64_field(4, f64_to_bits_with_nan(*self));
    }
}

// An `ArrayValue`.
impl Message for Array {
    ghost fields = { λ array. message_fields (array_members (plain_array array)) };

    fn write(&self, alloc: Global, sink: &mut Sink) {
        match self {
            Array::Bool(truths) => repeated(sink, alloc, 1, truths),
            Array::I64(numbers) => repeated(sink, alloc, 1, numbers),
            Array::String(texts) => repeated(sink, alloc, 1, texts),
            Array::F64(numbers) => repeated(sink, alloc, 1, numbers),
        }
    }
}

// An `AnyValue`.
impl Message for Value {
    ghost fields = { λ value. message_fields (value_members (plain_value value)) };

    fn write(&self, alloc: Global, sink: &mut Sink) {
        match self {
            Value::Bool(truth) => truth.write(alloc, sink),
            Value::I64(number) => number.write(alloc, sink),
            Value::String(text) => sink.bytes_field(1, text.as_bytes()),
            Value::Array(array) => nested(sink, alloc, 5, array),
            Value::F64(number) => number.write(alloc, sink),
        }
    }
}

/// A key and its value, as a `KeyValue` of the protocol.
#[derive(Drop)]
pub(crate) struct Pair<'a> {
    pub(crate) key: &'a Key,
    pub(crate) value: &'a Value,
}

impl Message for Pair<'_> {
    ghost fields = { λ pair. message_fields (pair_members (pair.key.now, plain_value pair.value.now)) };

    fn write(&self, alloc: Global, sink: &mut Sink) {
        nested(sink, alloc, 2, self.value);
        sink.bytes(1, self.key.as_str().as_bytes());
    }
}

impl Message for KeyValue {
    ghost fields = { λ attribute. message_fields (attribute_members attribute) };

    fn write(&self, alloc: Global, sink: &mut Sink) {
        nested(sink, alloc, 2, &self.value);
        sink.bytes(1, self.key.as_str().as_bytes());
    }
}
