//! Attributes: keys, values and lists of them.

ghost use Rattle.std.specs.Prelude.{◌≡◌, ◌++◌, ◌∷◌, [], map, string_bytes};
ghost use Rattle.json.specs.Tree.{json_tokens};
ghost use Rattle.opentelemetry.specs.PlainValues.{plain_array, plain_value};
ghost use Rattle.otel_otlp.specs.Fields.{Adds, each_tokens, fields_tokens, list_tokens};
ghost use Rattle.otel_otlp.specs.OtlpValues.{array_items, array_json, attribute_json, attributes_fields, bool_json};
ghost use Rattle.otel_otlp.specs.OtlpValues.{double_json, integer_json, pair_json, text_json, value_json};

use crate::tokens::RequestWriter;
use opentelemetry::{Array, Key, KeyValue, Value};
use std::alloc::AllocError;

impl RequestWriter {
    fn bool_value(&mut self, truth: bool) -> Result<(), AllocError>
        ensures { Adds result self.old self.new (json_tokens (bool_json truth)) }
    {
        self.begin_object()?;
        self.key("boolValue")?;
        self.boolean(truth)?;
        self.end_object()
    }

    fn integer_value(&mut self, number: i64) -> Result<(), AllocError>
        ensures { Adds result self.old self.new (json_tokens (integer_json number)) }
    {
        self.begin_object()?;
        self.key("intValue")?;
        self.integer(number)?;
        self.end_object()
    }

    fn float_value(&mut self, number: f64) -> Result<(), AllocError>
        ensures { Adds result self.old self.new (json_tokens (double_json number)) }
    {
        self.begin_object()?;
        self.key("doubleValue")?;
        self.float(number)?;
        self.end_object()
    }

    fn text_value(&mut self, text: &str) -> Result<(), AllocError>
        ensures { Adds result self.old self.new (json_tokens (text_json text.now)) }
    {
        self.begin_object()?;
        self.key("stringValue")?;
        self.string(text)?;
        self.end_object()
    }

    fn bool_items(&mut self, items: &[bool]) -> Result<(), AllocError>
        ensures { Adds result self.old self.new (list_tokens bool_json items.now) }
    {
        for item in items {
            self.bool_value(*item)?;
        }
        Ok(())
    }

    fn integer_items(&mut self, items: &[i64]) -> Result<(), AllocError>
        ensures { Adds result self.old self.new (list_tokens integer_json items.now) }
    {
        for item in items {
            self.integer_value(*item)?;
        }
        Ok(())
    }

    fn float_items(&mut self, items: &[f64]) -> Result<(), AllocError>
        ensures { Adds result self.old self.new (list_tokens double_json items.now) }
    {
        for item in items {
            self.float_value(*item)?;
        }
        Ok(())
    }

    fn text_items(&mut self, items: &[String]) -> Result<(), AllocError>
        ensures { Adds result self.old self.new
            (list_tokens text_json (map (λ item. string_bytes item) items.now)) }
    {
        for item in items {
            self.text_value(item.as_str())?;
        }
        Ok(())
    }

    fn array_items(&mut self, array: &Array) -> Result<(), AllocError>
        ensures { Adds result self.old self.new (each_tokens (array_items (plain_array array.now))) }
    {
        match array {
            Array::Bool(items) => self.bool_items(items),
            Array::I64(items) => self.integer_items(items),
            Array::String(items) => self.text_items(items),
            Array::F64(items) => self.float_items(items),
        }
    }

    fn array_value(&mut self, array: &Array) -> Result<(), AllocError>
        ensures { Adds result self.old self.new (json_tokens (array_json (plain_array array.now))) }
    {
        self.begin_object()?;
        self.key("arrayValue")?;
        self.begin_object()?;
        self.key("values")?;
        self.begin_array()?;
        self.array_items(array)?;
        self.end_array()?;
        self.end_object()?;
        self.end_object()
    }

    fn value(&mut self, value: &Value) -> Result<(), AllocError>
        ensures { Adds result self.old self.new (json_tokens (value_json (plain_value value.now))) }
    {
        match value {
            Value::Bool(truth) => self.bool_value(*truth),
            Value::I64(number) => self.integer_value(*number),
            Value::String(text) => self.text_value(text.as_str()),
            Value::Array(array) => self.array_value(array),
            Value::F64(number) => self.float_value(*number),
        }
    }

    /// A key and its value.
    pub(crate) fn pair(&mut self, key: &Key, value: &Value) -> Result<(), AllocError>
        ensures { Adds result self.old self.new (json_tokens (pair_json (key.now, plain_value value.now))) }
    {
        self.begin_object()?;
        self.text_field("key", key.as_str())?;
        self.key("value")?;
        self.value(value)?;
        self.end_object()
    }

    fn attribute_items(&mut self, attributes: &[KeyValue]) -> Result<(), AllocError>
        ensures { Adds result self.old self.new (list_tokens attribute_json attributes.now) }
    {
        for attribute in attributes {
            self.pair(&attribute.key, &attribute.value)?;
        }
        Ok(())
    }

    /// The attributes that were kept, and how many were not.
    pub(crate) fn attributes(
        &mut self,
        attributes: &[KeyValue],
        dropped: u32,
    ) -> Result<(), AllocError>
        ensures { Adds result self.old self.new (fields_tokens (attributes_fields attributes.now dropped)) }
    {
        self.key("attributes")?;
        self.begin_array()?;
        self.attribute_items(attributes)?;
        self.end_array()?;
        self.number_field("droppedAttributesCount", dropped as u64)
    }
}
