//! Attributes by their keys. Putting one in moves its key and its value, and takes the place of an earlier value.

ghost use Rattle.std.specs.Prelude.{◌≡◌, ◌↔◌, [], ◌∷◌, IfOk, OnOk, OnErr, IsOk, IsTrue};
ghost use Rattle.std.specs.FinMap as fin;
ghost use Rattle.opentelemetry.specs.Plain.{text};
ghost use Rattle.opentelemetry.specs.PlainValues.{plain_value};
ghost use Rattle.otel_resource.specs.Resource.{by_key, union, attributes_of};

use opentelemetry::{Key, KeyValue, Value};
use std::alloc::{AllocError, Global};
use std::collections::BTreeMap;

// One attribute more, or another value for its key.
pub(super) fn put(
    attributes: &mut BTreeMap<Key, Value>,
    key: Key,
    value: Value,
) -> Result<(), AllocError>
    ensures ok { OnOk result (by_key attributes.new ≡ fin.insert (by_key attributes.old) key (plain_value value)) }
    ensures err { OnErr result (by_key attributes.new ≡ by_key attributes.old) }
{
    attributes.insert(key, value)?;
    Ok(())
}

pub(super) fn put_text(
    attributes: &mut BTreeMap<Key, Value>,
    alloc: Global,
    key: &str,
    value: &str,
) -> Result<(), AllocError>
    ensures { OnOk result (by_key attributes.new ≡ fin.insert (by_key attributes.old) key.now (text value.now)) }
{
    let key = Key::new(String::from_str(alloc, key)?);
    let value = Value::String(String::from_str(alloc, value)?);
    put(attributes, key, value)
}

// The pairs over the attributes, later ones winning.
pub(super) fn put_pairs(
    mut attributes: BTreeMap<Key, Value>,
    pairs: Vec<KeyValue>,
) -> Result<BTreeMap<Key, Value>, AllocError>
    ensures { IfOk result (λ all. by_key all ≡ union (by_key attributes) (attributes_of pairs.items)) }
{
    for pair in pairs {
        let KeyValue { key, value } = pair;
        put(&mut attributes, key, value)?;
    }
    Ok(attributes)
}

// The right attributes over the left ones.
pub(super) fn put_all(
    mut left: BTreeMap<Key, Value>,
    right: BTreeMap<Key, Value>,
) -> Result<BTreeMap<Key, Value>, AllocError>
    ensures { IfOk result (λ all. by_key all ≡ union (by_key left) (by_key right)) }
{
    if left.is_empty() {
        return Ok(right);
    }
    for (key, value) in right {
        put(&mut left, key, value)?;
    }
    Ok(left)
}

pub(super) fn same_by_key(these: &BTreeMap<Key, Value>, those: &BTreeMap<Key, Value>) -> bool
    ensures { IsTrue result ↔ (by_key these.now ≡ by_key those.now) }
{
    these.len() == those.len() && these == those
}
