//! The text of a value: `true` or `false`, the decimal, the text itself, that of a float, and a list as `[a,b]` with its
//! texts between double quotes, unescaped.

ghost use Rattle.std.specs.Prelude.{ℕ, List, ◌∷◌, map, if◌then◌else◌, nat_lt};
ghost use Rattle.std.specs.Fmt.{WritesOnOk};
ghost use Rattle.opentelemetry.specs.PlainValues.{plain_array};
ghost use Rattle.opentelemetry.specs.ValueText.{list_text, truth_text, value_text};

use super::{Array, Value};
use otel_float::FloatText;
use std::fmt;

/// What a list of values holds.
trait ListItem {
    // The text of the item within a list.
    ghost item_text: { Self → List ℕ };

    fn write_item<W: fmt::Write>(&self, f: &mut fmt::Formatter<W>) -> fmt::Result
    where
        Self: Sized,
        ensures { WritesOnOk W.write_str_gives f.old result (item_text self.now) f.new };
}

impl ListItem for bool {
    ghost item_text = { truth_text };

    fn write_item<W: fmt::Write>(&self, f: &mut fmt::Formatter<W>) -> fmt::Result {
        if *self {
            f.write_str("true")
        } else {
            f.write_str("false")
        }
    }
}

impl ListItem for i64 {
    ghost use Rattle.std.specs.Fmt.{signed_decimal};

    ghost item_text = { signed_decimal };

    fn write_item<W: fmt::Write>(&self, f: &mut fmt::Formatter<W>) -> fmt::Result {
        let number = *self;
        write!(f, "{number}")
    }
}

impl ListItem for f64 {
    ghost use Rattle.otel_float.specs.FloatText.{float_text};

    ghost item_text = { float_text };

    fn write_item<W: fmt::Write>(&self, f: &mut fmt::Formatter<W>) -> fmt::Result {
        f.write_str(FloatText::new(*self).as_str())
    }
}

impl ListItem for String {
    ghost use Rattle.std.specs.Prelude.{string_bytes};
    ghost use Rattle.opentelemetry.specs.ValueText.{quoted_text};

    ghost item_text = { λ t. quoted_text (string_bytes t) };

    fn write_item<W: fmt::Write>(&self, f: &mut fmt::Formatter<W>) -> fmt::Result {
        f.write_str("\"")?;
        f.write_str(self.as_str())?;
        f.write_str("\"")
    }
}

/// Writes the item at an index: after a comma where others stand before it.
fn write_at<T: ListItem, W: fmt::Write>(
    index: usize,
    item: &T,
    f: &mut fmt::Formatter<W>,
) -> fmt::Result
    ensures { WritesOnOk W.write_str_gives f.old result
        (if nat_lt 0 index then 44 ∷ T.item_text item.now else T.item_text item.now) f.new }
{
    if index > 0 {
        f.write_str(",")?;
    }
    item.write_item(f)
}

/// Writes items between brackets, joined by commas.
fn write_list<T: ListItem, W: fmt::Write>(items: &[T], f: &mut fmt::Formatter<W>) -> fmt::Result
    ensures { WritesOnOk W.write_str_gives f.old result (list_text (map T.item_text items.now)) f.new }
{
    f.write_str("[")?;
    for (i, item) in items.iter().enumerate() {
        write_at(i, item, f)?;
    }
    f.write_str("]")
}

/// Writes a list of any kind.
fn write_array<W: fmt::Write>(array: &Array, f: &mut fmt::Formatter<W>) -> fmt::Result
    ensures { WritesOnOk W.write_str_gives f.old result (value_text (plain_array array.now)) f.new }
{
    match array {
        Array::Bool(items) => write_list(items.as_slice(), f),
        Array::I64(items) => write_list(items.as_slice(), f),
        Array::String(items) => write_list(items.as_slice(), f),
        Array::F64(items) => write_list(items.as_slice(), f),
    }
}

impl fmt::Display for Value {
    ghost use Rattle.std.specs.Prelude.{Some};
    ghost use Rattle.opentelemetry.specs.PlainValues.{plain_value};
    ghost use Rattle.opentelemetry.specs.ValueText.{value_text};

    ghost output = { λ value. Some (value_text (plain_value value)) };

    fn fmt<W: fmt::Write>(&self, f: &mut fmt::Formatter<W>) -> fmt::Result {
        match self {
            Value::Bool(truth) => truth.write_item(f),
            Value::I64(number) => number.write_item(f),
            Value::String(text) => f.write_str(text.as_str()),
            Value::Array(array) => write_array(array, f),
            Value::F64(number) => number.write_item(f),
        }
    }
}
