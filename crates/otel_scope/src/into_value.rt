//! What an attribute may be set to.

ghost use Rattle.std.specs.Prelude.{◌≡◌, IfOk};
ghost use Rattle.opentelemetry.specs.PlainValues.{plain_value};

use opentelemetry::{Array, Value};
use std::alloc::{AllocError, Global};

/// What the value of an attribute is made of.
pub trait IntoValue: Drop {
    ghost use Rattle.opentelemetry.specs.Plain.{PlainValue};

    ghost value: { Self → PlainValue };

    /// The value. `AllocError` where there is no memory for a text.
    fn into_value(self, alloc: Global) -> Result<Value, AllocError>
        ensures { IfOk result (λ made. plain_value made ≡ value self) };
}

impl IntoValue for &str {
    ghost use Rattle.opentelemetry.specs.Plain.{text};

    ghost value = { λ from. text from.now };

    fn into_value(self, alloc: Global) -> Result<Value, AllocError> {
        Ok(Value::String(String::from_str(alloc, self)?))
    }
}

impl IntoValue for String {
    ghost use Rattle.std.specs.Prelude.{string_bytes};
    ghost use Rattle.opentelemetry.specs.Plain.{text};

    ghost value = { λ from. text (string_bytes from) };

    fn into_value(self, _alloc: Global) -> Result<Value, AllocError> {
        Ok(Value::String(self))
    }
}

impl IntoValue for i64 {
    ghost use Rattle.opentelemetry.specs.Plain.{integer};

    ghost value = { integer };

    fn into_value(self, _alloc: Global) -> Result<Value, AllocError> {
        Ok(Value::I64(self))
    }
}

impl IntoValue for bool {
    ghost use Rattle.opentelemetry.specs.Plain.{boolean};

    ghost value = { boolean };

    fn into_value(self, _alloc: Global) -> Result<Value, AllocError> {
        Ok(Value::Bool(self))
    }
}

impl IntoValue for f64 {
    ghost use Rattle.opentelemetry.specs.Plain.{double};

    ghost value = { double };

    fn into_value(self, _alloc: Global) -> Result<Value, AllocError> {
        Ok(Value::F64(self))
    }
}

impl IntoValue for Array {
    ghost use Rattle.opentelemetry.specs.PlainValues.{plain_array};

    ghost value = { plain_array };

    fn into_value(self, _alloc: Global) -> Result<Value, AllocError> {
        Ok(Value::Array(self))
    }
}

impl IntoValue for Value {
    ghost use Rattle.opentelemetry.specs.PlainValues.{plain_value};

    ghost value = { plain_value };

    fn into_value(self, _alloc: Global) -> Result<Value, AllocError> {
        Ok(self)
    }
}
