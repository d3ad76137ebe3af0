//! Attributes, as lines of one text. One that does not read is left out, and named by its place.

ghost use Rattle.std.specs.Prelude.{◌≡◌, IfOk, OnOk, map, string_bytes};
ghost use Rattle.json.specs.Value.{value_view};
ghost use Rattle.otel_otlp_read.specs.Kept.{kept_from};
ghost use Rattle.otel_otlp_read.specs.Reading.{Gives};
ghost use Rattle.otel_otlp_read.specs.SpanLists.{attribute_line, attributes_of};

use crate::fault::{Fault, ReadError};
use crate::left_out::{ItemList, ItemPlace, LeftOut};
use crate::member::list;
use crate::value::{VALUE_DEPTH, push_pair};
use json::Value;
use std::alloc::{AllocError, Global};
use std::marker::Model;

/// The lines of the attributes that read, and the others.
#[derive(Drop)]
pub(crate) struct ReadAttributes {
    pub(crate) lines: String,
    pub(crate) left_out: Vec<LeftOut>,
}

impl Model for ReadAttributes {
    ghost use Rattle.std.specs.Prelude.{ℕ, string_bytes};
    ghost use Rattle.otel_otlp_read.specs.Kept.{Kept};

    ghost Value = { Kept ℕ };

    ghost view = { λ read. record { kept = string_bytes read.lines; left_out = read.left_out.items } };
}

impl ReadAttributes {
    ghost use Rattle.otel_otlp_read.specs.Kept.{and_kept, none_kept, of_item};

    /// None.
    fn new(alloc: Global) -> ReadAttributes
        ensures { result ≡ none_kept }
    {
        ReadAttributes {
            lines: String::new(alloc),
            left_out: Vec::new(alloc),
        }
    }

    /// Appends the attribute at a place. The line is room for its text.
    fn add(
        &mut self,
        item: ItemPlace,
        attribute: &Value,
        line: &mut String,
    ) -> Result<(), AllocError>
        ensures { OnOk result (self.new
            ≡ and_kept self.old (of_item item (attribute_line (value_view attribute.now)))) }
    {
        match write_attribute(line, attribute) {
            Ok(()) => self.lines.push_str(line.as_str()),
            Err(ReadError::Fault(fault)) => {
                self.left_out.push(LeftOut { item, fault })?;
                Ok(())
            }
            Err(ReadError::OutOfMemory) => Err(AllocError),
        }
    }
}

/// Writes the line of an attribute in the place of a text: a line feed, its key, `=` and the text of its value.
fn write_attribute(line: &mut String, attribute: &Value) -> Result<(), ReadError>
    ensures { Gives (λ _. string_bytes line.new) result (attribute_line (value_view attribute.now)) }
{
    line.clear();
    line.push_str("\n")?;
    push_pair(line, attribute, VALUE_DEPTH, false)
}

/// What is read of attributes, one after the other, which stand in this list.
fn each_attribute(
    alloc: Global,
    list: &ItemList,
    items: &[Value],
) -> Result<ReadAttributes, AllocError>
    ensures { IfOk result (λ read. read ≡ kept_from attribute_line list.now 1 (map value_view items.now)) }
{
    let mut read = ReadAttributes::new(alloc);
    let mut line = String::new(alloc);
    for (place, attribute) in items.iter().enumerate() {
        let item = ItemPlace {
            list: *list,
            number: place as u64 + 1,
        };
        read.add(item, attribute, &mut line)?;
    }
    Ok(read)
}

/// What is read of the attributes of a span, an event or a link, in order: this list of them.
#[tactic(auto, unfolding(crate::specs::SpanLists::attributes_of))]
pub(crate) fn attributes(
    alloc: Global,
    attribute_list: ItemList,
    object: &Value,
) -> Result<ReadAttributes, ReadError>
    ensures { Gives (λ read. read) result (attributes_of attribute_list (value_view object.now)) }
{
    let items = list(object, "attributes", Fault::AttributesType)?;
    Ok(each_attribute(alloc, &attribute_list, items)?)
}
