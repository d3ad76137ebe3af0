//! The links of a span. One that does not read is left out, and named by its place; so is an attribute of one.

ghost use Rattle.std.specs.Prelude.{◌≡◌, IfOk, OnOk, map};
ghost use Rattle.json.specs.Value.{value_view};
ghost use Rattle.otel_otlp_read.specs.Kept.{kept_by};
ghost use Rattle.otel_otlp_read.specs.Reading.{Gives};
ghost use Rattle.otel_otlp_read.specs.SpanLists.{link_at, link_in, links_of};

use crate::attributes::{ReadAttributes, attributes};
use crate::fault::{Fault, ReadError};
use crate::left_out::{ItemList, ItemPlace, LeftOut};
use crate::member::{list, object};
use crate::number::{span_id, trace_id};
use json::Value;
use opentelemetry::SpanId;
use otel_shown::ShownLink;
use std::alloc::{AllocError, Global};
use std::marker::Model;

/// A link, and which of its attributes do not read.
#[derive(Drop)]
struct ReadLink {
    link: ShownLink,
    left_out: Vec<LeftOut>,
}

impl Model for ReadLink {
    ghost use Rattle.std.specs.Prelude.{[], ◌∷◌};
    ghost use Rattle.otel_shown.specs.Shown.{PlainShownLink};
    ghost use Rattle.otel_otlp_read.specs.Kept.{Kept};

    ghost Value = { Kept PlainShownLink };

    ghost view = { λ read. record { kept = read.link ∷ []; left_out = read.left_out.items } };
}

/// The links that read, and what is left out.
#[derive(Drop)]
pub(crate) struct ReadLinks {
    pub(crate) links: Vec<ShownLink>,
    pub(crate) left_out: Vec<LeftOut>,
}

impl Model for ReadLinks {
    ghost use Rattle.otel_shown.specs.Shown.{PlainShownLink};
    ghost use Rattle.otel_otlp_read.specs.Kept.{Kept};

    ghost Value = { Kept PlainShownLink };

    ghost view = { λ read. record { kept = read.links.items; left_out = read.left_out.items } };
}

impl ReadLinks {
    ghost use Rattle.otel_otlp_read.specs.Kept.{and_kept, none_kept};

    /// None.
    fn new(alloc: Global) -> ReadLinks
        ensures { result ≡ none_kept }
    {
        ReadLinks {
            links: Vec::new(alloc),
            left_out: Vec::new(alloc),
        }
    }

    /// Appends the link of a span by its number there.
    fn add(
        &mut self,
        alloc: Global,
        span_id: SpanId,
        number: u64,
        value: &Value,
    ) -> Result<(), AllocError>
        ensures { OnOk result (self.new
            ≡ and_kept self.old (link_at span_id number (value_view value.now))) }
    {
        match link(alloc, span_id, number, value) {
            Ok(read) => {
                self.left_out.extend_from_slice(&read.left_out)?;
                self.links.push(read.link)?;
                Ok(())
            }
            Err(ReadError::Fault(fault)) => {
                let list = ItemList::SpanLinks(span_id);
                let item = ItemPlace { list, number };
                self.left_out.push(LeftOut { item, fault })?;
                Ok(())
            }
            Err(ReadError::OutOfMemory) => Err(AllocError),
        }
    }
}

/// A link of a span: the ids of the span that it points to, and its attributes.
#[tactic(auto, unfolding(crate::specs::SpanLists::link_in))]
fn link(alloc: Global, owner: SpanId, number: u64, link: &Value) -> Result<ReadLink, ReadError>
    ensures { Gives (λ read. read) result (link_in owner number (value_view link.now)) }
{
    object(link, Fault::LinkType)?;
    let trace_id = trace_id(link)?;
    let span_id = span_id(link)?;
    let list = ItemList::LinkAttributes(owner, number);
    let ReadAttributes { lines, left_out } = attributes(alloc, list, link)?;
    let link = ShownLink {
        trace_id,
        span_id,
        attributes: lines,
    };
    Ok(ReadLink { link, left_out })
}

/// What is read of links, one after the other.
fn each_link(alloc: Global, span_id: SpanId, items: &[Value]) -> Result<ReadLinks, AllocError>
    ensures { IfOk result (λ read. read ≡ kept_by (link_at span_id) 1 (map value_view items.now)) }
{
    let mut read = ReadLinks::new(alloc);
    for (place, link) in items.iter().enumerate() {
        read.add(alloc, span_id, place as u64 + 1, link)?;
    }
    Ok(read)
}

/// What is read of the links of a span, in order.
#[tactic(auto, unfolding(crate::specs::SpanLists::links_of))]
pub(crate) fn links(alloc: Global, span_id: SpanId, span: &Value) -> Result<ReadLinks, ReadError>
    ensures { Gives (λ read. read) result (links_of span_id (value_view span.now)) }
{
    let items = list(span, "links", Fault::LinksType)?;
    Ok(each_link(alloc, span_id, items)?)
}
