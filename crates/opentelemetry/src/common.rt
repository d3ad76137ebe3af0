//! Attributes and the scope of a library: what every span, event, link and resource carries. Texts are handed in as
//! `String`s and stay where they are.

ghost use Rattle.std.specs.Prelude.{◌≡◌};
ghost use Rattle.opentelemetry.specs.PlainValues.{plain_value};

mod display;
mod float;
mod key;
mod scope;

use float::{same_float, same_floats};
pub use key::Key;
pub use scope::{InstrumentationScope, InstrumentationScopeBuilder};
use std::alloc::AllocError;
use std::marker::Model;

/// A list of values of one kind.
#[derive(Debug, Drop)]
pub enum Array {
    Bool(Vec<bool>),
    I64(Vec<i64>),
    String(Vec<String>),
    F64(Vec<f64>),
}

impl Clone for Array {
    ghost use Rattle.std.specs.Prelude.{◌≡◌};
    ghost use Rattle.opentelemetry.specs.PlainValues.{plain_array};

    ghost is_clone = { λ array copy. plain_array copy ≡ plain_array array };

    fn clone(&self) -> Result<Array, AllocError> {
        match self {
            Array::Bool(items) => Ok(Array::Bool(items.clone()?)),
            Array::I64(items) => Ok(Array::I64(items.clone()?)),
            Array::String(items) => Ok(Array::String(items.clone()?)),
            Array::F64(items) => Ok(Array::F64(items.clone()?)),
        }
    }
}

impl PartialEq for Array {
    ghost use Rattle.std.specs.Ordering.{on};
    ghost use Rattle.std.proofs.lemmas.Cmp.{on_equiv};
    ghost use Rattle.std.specs.Cmp.{partial_equiv_from_equiv};
    ghost use Rattle.opentelemetry.specs.PlainValues.{plain_array};
    ghost use Rattle.opentelemetry.specs.Same.{same_value, same_value_decides, equivalence_from_decides};

    ghost eq = { on plain_array same_value };

    ghost laws = { partial_equiv_from_equiv
        (on_equiv plain_array (equivalence_from_decides same_value same_value_decides)) };

    fn eq(&self, other: &Array) -> bool {
        match (self, other) {
            (Array::Bool(these), Array::Bool(those)) => these == those,
            (Array::I64(these), Array::I64(those)) => these == those,
            (Array::String(these), Array::String(those)) => these == those,
            (Array::F64(these), Array::F64(those)) => same_floats(these, those),
            _ => false,
        }
    }
}

impl Eq for Array {
    ghost use Rattle.std.proofs.lemmas.Cmp.{on_equiv};
    ghost use Rattle.opentelemetry.specs.PlainValues.{plain_array};
    ghost use Rattle.opentelemetry.specs.Same.{same_value, same_value_decides, equivalence_from_decides};

    ghost laws = { on_equiv plain_array (equivalence_from_decides same_value same_value_decides) };
}

/// The value of an attribute.
#[derive(Debug, Drop)]
pub enum Value {
    Bool(bool),
    I64(i64),
    String(String),
    Array(Array),
    F64(f64),
}

impl Clone for Value {
    ghost use Rattle.std.specs.Prelude.{◌≡◌};
    ghost use Rattle.opentelemetry.specs.PlainValues.{plain_value, IsScalar};

    ghost is_clone = { λ value copy. plain_value copy ≡ plain_value value };

    ghost is_infallible = { λ value. IsScalar (plain_value value) };

    fn clone(&self) -> Result<Value, AllocError> {
        match self {
            Value::Bool(truth) => Ok(Value::Bool(*truth)),
            Value::I64(number) => Ok(Value::I64(*number)),
            Value::String(text) => Ok(Value::String(text.clone()?)),
            Value::Array(array) => Ok(Value::Array(array.clone()?)),
            Value::F64(number) => Ok(Value::F64(*number)),
        }
    }
}

impl PartialEq for Value {
    ghost use Rattle.std.specs.Ordering.{on};
    ghost use Rattle.std.proofs.lemmas.Cmp.{on_equiv};
    ghost use Rattle.std.specs.Cmp.{partial_equiv_from_equiv};
    ghost use Rattle.opentelemetry.specs.PlainValues.{plain_value};
    ghost use Rattle.opentelemetry.specs.Same.{same_value, same_value_decides, equivalence_from_decides};

    ghost eq = { on plain_value same_value };

    ghost laws = { partial_equiv_from_equiv
        (on_equiv plain_value (equivalence_from_decides same_value same_value_decides)) };

    fn eq(&self, other: &Value) -> bool {
        match (self, other) {
            (Value::Bool(this), Value::Bool(that)) => this == that,
            (Value::I64(this), Value::I64(that)) => this == that,
            (Value::String(this), Value::String(that)) => this == that,
            (Value::Array(this), Value::Array(that)) => this == that,
            (Value::F64(this), Value::F64(that)) => same_float(*this, *that),
            _ => false,
        }
    }
}

impl Eq for Value {
    ghost use Rattle.std.proofs.lemmas.Cmp.{on_equiv};
    ghost use Rattle.opentelemetry.specs.PlainValues.{plain_value};
    ghost use Rattle.opentelemetry.specs.Same.{same_value, same_value_decides, equivalence_from_decides};

    ghost laws = { on_equiv plain_value (equivalence_from_decides same_value same_value_decides) };
}

/// An attribute.
#[derive(Debug, Drop)]
pub struct KeyValue {
    pub key: Key,
    pub value: Value,
}

impl Model for KeyValue {
    ghost use Rattle.opentelemetry.specs.Plain.{PlainKeyValue};
    ghost use Rattle.opentelemetry.specs.PlainValues.{plain_value};

    ghost Value = { PlainKeyValue };

    ghost view = { λ attribute. record { key = attribute.key; value = plain_value attribute.value } };
}

impl KeyValue {
    /// An attribute of this key and value (OpenTelemetry specification, "Attribute").
    pub fn new(key: Key, value: Value) -> KeyValue
        ensures { result ≡ record { key = key; value = plain_value value } }
    {
        KeyValue { key, value }
    }
}

impl Clone for KeyValue {
    ghost use Rattle.std.specs.Prelude.{◌≡◌};

    ghost is_clone = { λ attribute copy. copy ≡ attribute };

    fn clone(&self) -> Result<KeyValue, AllocError> {
        Ok(KeyValue {
            key: self.key.clone()?,
            value: self.value.clone()?,
        })
    }
}

impl PartialEq for KeyValue {
    ghost use Rattle.opentelemetry.specs.Same.{same_attribute, same_attribute_decides};
    ghost use Rattle.opentelemetry.specs.Same.{partial_equivalence_from_decides};

    ghost eq = { same_attribute };

    ghost laws = { partial_equivalence_from_decides same_attribute same_attribute_decides };

    fn eq(&self, other: &KeyValue) -> bool {
        self.key == other.key && self.value == other.value
    }
}

impl Eq for KeyValue {
    ghost use Rattle.opentelemetry.specs.Same.{same_attribute, same_attribute_decides, equivalence_from_decides};

    ghost laws = { equivalence_from_decides same_attribute same_attribute_decides };
}
