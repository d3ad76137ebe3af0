//! Who made spans: the attributes of a resource, and the name of the service, the first one called `service.name`. An
//! attribute that does not read is left out, and named by its place.

ghost use Rattle.std.specs.Prelude.{◌≡◌, [], ◌∷◌, IfOk, OnOk, map, string_bytes};
ghost use Rattle.json.specs.Value.{value_view};
ghost use Rattle.opentelemetry.specs.Text.{TextGrows};
ghost use Rattle.otel_shown.specs.Shown.{pair_line};
ghost use Rattle.otel_otlp_read.specs.declared.left_out.ItemList.TheVariants.{ResourceAttributes, Resources};
ghost use Rattle.otel_otlp_read.specs.Kept.{kept_from, left, none_kept};
ghost use Rattle.otel_otlp_read.specs.Reading.{Gives};
ghost use Rattle.otel_otlp_read.specs.Resources.{pair_in, pair_lines, pairs_in, pairs_member, service_in};
ghost use Rattle.otel_otlp_read.specs.Resources.{shown_resource, value_member};

use crate::fault::{Fault, ReadError};
use crate::left_out::{ItemList, ItemPlace, LeftOut};
use crate::member::{given, list, object, text};
use crate::value::{VALUE_DEPTH, push_value};
use json::Value;
use otel_shown::ShownResource;
use std::alloc::{AllocError, Global};
use std::marker::Model;

/// The key of an attribute, and the text of its value.
#[derive(Drop)]
struct ResourcePair {
    key: String,
    value: String,
}

impl Model for ResourcePair {
    ghost use Rattle.std.specs.Prelude.{string_bytes};
    ghost use Rattle.otel_otlp_read.specs.Resources.{PlainPair};

    ghost Value = { PlainPair };

    ghost view = { λ pair. (string_bytes pair.key, string_bytes pair.value) };
}

/// The attributes of a resource that read, and the others.
#[derive(Drop)]
pub(crate) struct ReadPairs {
    pairs: Vec<ResourcePair>,
    pub(crate) left_out: Vec<LeftOut>,
}

impl Model for ReadPairs {
    ghost use Rattle.otel_otlp_read.specs.Kept.{Kept};
    ghost use Rattle.otel_otlp_read.specs.Resources.{PlainPair};

    ghost Value = { Kept PlainPair };

    ghost view = { λ read. record { kept = read.pairs.items; left_out = read.left_out.items } };
}

impl ReadPairs {
    ghost use Rattle.otel_otlp_read.specs.Kept.{and_kept, none_kept, of_item};

    /// None.
    fn new(alloc: Global) -> ReadPairs
        ensures { result ≡ none_kept }
    {
        ReadPairs {
            pairs: Vec::new(alloc),
            left_out: Vec::new(alloc),
        }
    }

    /// None of a resource that does not read, the one of this number.
    fn without(alloc: Global, number: u64, fault: Fault) -> Result<ReadPairs, AllocError>
        ensures { IfOk result (λ read. read ≡ left (record { list = Resources; number = number }) fault) }
    {
        let list = ItemList::Resources;
        let mut read = ReadPairs::new(alloc);
        read.left_out.push(LeftOut {
            item: ItemPlace { list, number },
            fault,
        })?;
        Ok(read)
    }

    /// Appends the attribute at a place.
    fn add(&mut self, alloc: Global, item: ItemPlace, attribute: &Value) -> Result<(), AllocError>
        ensures { OnOk result (self.new
            ≡ and_kept self.old (of_item item (pair_in (value_view attribute.now)))) }
    {
        match pair(alloc, attribute) {
            Ok(pair) => self.pairs.push(pair)?,
            Err(ReadError::Fault(fault)) => self.left_out.push(LeftOut { item, fault })?,
            Err(ReadError::OutOfMemory) => return Err(AllocError),
        }
        Ok(())
    }

    /// The resource as it is shown.
    pub(crate) fn shown(&self, alloc: Global) -> Result<ShownResource, AllocError>
        ensures { IfOk result (λ resource. resource ≡ shown_resource self.now.kept) }
    {
        let attributes = pair_lines(alloc, &self.pairs)?;
        let service = String::from_str(alloc, service_in(&self.pairs))?;
        ShownResource::new(alloc, service, attributes)
    }
}

/// The name of the service that attributes say, empty where they say none.
fn service_in(pairs: &[ResourcePair]) -> &str
    ensures { result.now ≡ service_in pairs.now }
{
    let mut left = pairs;
    while let Some((pair, rest)) = left.split_first() {
        if pair.key.as_str() == "service.name" {
            return pair.value.as_str();
        }
        left = rest;
    }
    ""
}

/// Appends the line of an attribute.
fn push_pair(lines: &mut String, pair: &ResourcePair) -> Result<(), AllocError>
    ensures { OnOk result (TextGrows lines.old (pair_line pair.now.0 pair.now.1) lines.new) }
{
    lines.push('\n')?;
    lines.push_str(pair.key.as_str())?;
    lines.push('=')?;
    lines.push_str(pair.value.as_str())
}

/// The lines of attributes.
fn pair_lines(alloc: Global, pairs: &[ResourcePair]) -> Result<String, AllocError>
    ensures { IfOk result (λ lines. string_bytes lines ≡ pair_lines pairs.now) }
{
    let mut lines = String::new(alloc);
    for pair in pairs {
        push_pair(&mut lines, pair)?;
    }
    Ok(lines)
}

/// The text of the value of an attribute, empty where none is given.
fn value_text(alloc: Global, attribute: &Value) -> Result<String, ReadError>
    ensures { Gives string_bytes result (value_member (value_view attribute.now)) }
{
    let mut text = String::new(alloc);
    if let Some(value) = given(attribute, "value") {
        push_value(&mut text, value, VALUE_DEPTH, false)?;
    }
    Ok(text)
}

/// An attribute of a resource.
#[tactic(auto, unfolding(crate::specs::Resources::pair_in))]
fn pair(alloc: Global, attribute: &Value) -> Result<ResourcePair, ReadError>
    ensures { Gives (λ pair. pair ∷ []) result (pair_in (value_view attribute.now)) }
{
    object(attribute, Fault::AttributeType)?;
    let key = text(attribute, "key", Fault::KeyType)?;
    let value = value_text(alloc, attribute)?;
    let key = String::from_str(alloc, key)?;
    Ok(ResourcePair { key, value })
}

/// What is read of attributes, one after the other.
fn each_pair(alloc: Global, resource: u64, items: &[Value]) -> Result<ReadPairs, AllocError>
    ensures { IfOk result (λ read. read
        ≡ kept_from pair_in (ResourceAttributes resource) 1 (map value_view items.now)) }
{
    let mut read = ReadPairs::new(alloc);
    for (place, attribute) in items.iter().enumerate() {
        let list = ItemList::ResourceAttributes(resource);
        let number = place as u64 + 1;
        read.add(alloc, ItemPlace { list, number }, attribute)?;
    }
    Ok(read)
}

/// The attributes of a resource, the one of this number.
#[tactic(auto, unfolding(crate::specs::Resources::pairs_in))]
fn pairs_in(alloc: Global, number: u64, resource: &Value) -> Result<ReadPairs, ReadError>
    ensures { Gives (λ read. read) result (pairs_in number (value_view resource.now)) }
{
    object(resource, Fault::ResourceType)?;
    let items = list(resource, "attributes", Fault::AttributesType)?;
    Ok(each_pair(alloc, number, items)?)
}

/// The attributes of the resource whose spans these are, none where there is none, or it does not read.
pub(crate) fn pairs(
    alloc: Global,
    number: u64,
    resource_spans: &Value,
) -> Result<ReadPairs, AllocError>
    ensures { IfOk result (λ read. read ≡ pairs_member number (value_view resource_spans.now)) }
{
    let Some(resource) = given(resource_spans, "resource") else {
        return Ok(ReadPairs::new(alloc));
    };
    match pairs_in(alloc, number, resource) {
        Ok(read) => Ok(read),
        Err(ReadError::Fault(fault)) => ReadPairs::without(alloc, number, fault),
        Err(ReadError::OutOfMemory) => Err(AllocError),
    }
}
