//! A span of a request, and what was left out of it.

ghost use Rattle.json.specs.Value.{value_view};
ghost use Rattle.otel_otlp_read.specs.Reading.{Gives};
ghost use Rattle.otel_otlp_read.specs.SpanParts.{span_in};

use crate::attributes::{ReadAttributes, attributes};
use crate::event::{ReadEvents, events};
use crate::fault::{Fault, ReadError};
use crate::kind::kind;
use crate::left_out::{ItemList, LeftOut};
use crate::link::{ReadLinks, links};
use crate::member::{object, text};
use crate::number::{moment, parent_span_id, span_id, trace_id};
use crate::status::status;
use json::Value;
use otel_shown::{ShownResource, ShownSpan};
use std::alloc::Global;
use std::marker::Model;

/// A span as it is shown, and what of its attributes, events and links does not read.
#[derive(Drop)]
pub(crate) struct ReadSpan {
    pub(crate) span: ShownSpan,
    pub(crate) left_out: Vec<LeftOut>,
}

impl Model for ReadSpan {
    ghost use Rattle.otel_otlp_read.specs.SpanParts.{PlainReadSpan};

    ghost Value = { PlainReadSpan };

    ghost view = { λ read. record { span = read.span; left_out = read.left_out.items } };
}

/// A span of a resource.
#[tactic(auto, unfolding(crate::specs::SpanParts::span_in, crate::specs::Members::own_name))]
pub(crate) fn span(
    alloc: Global,
    resource: &ShownResource,
    span: &Value,
) -> Result<ReadSpan, ReadError>
    ensures { Gives (λ span. span) result (span_in resource.now (value_view span.now)) }
{
    object(span, Fault::SpanType)?;
    let trace_id = trace_id(span)?;
    let span_id = span_id(span)?;
    let parent_span_id = parent_span_id(span)?;
    let name = text(span, "name", Fault::NameType)?;
    let kind = kind(span)?;
    let start_time = moment(span, "startTimeUnixNano")?;
    let end_time = moment(span, "endTimeUnixNano")?;
    let status = status(alloc, span)?;
    let ReadAttributes {
        lines,
        mut left_out,
    } = attributes(alloc, ItemList::SpanAttributes(span_id), span)?;
    let ReadEvents {
        events,
        left_out: others,
    } = events(alloc, span_id, span)?;
    left_out.extend_from_slice(&others)?;
    let ReadLinks {
        links,
        left_out: others,
    } = links(alloc, span_id, span)?;
    left_out.extend_from_slice(&others)?;
    let name = String::from_str(alloc, name)?;
    let resource = resource.clone()?;
    let span = ShownSpan {
        trace_id,
        span_id,
        parent_span_id,
        name,
        resource,
        kind,
        start_time,
        end_time,
        status,
        attributes: lines,
        events,
        links,
    };
    Ok(ReadSpan { span, left_out })
}
