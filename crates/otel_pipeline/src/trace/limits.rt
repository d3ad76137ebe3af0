//! What a span keeps within its limits: the first items of each list. Those over a limit are only counted
//! (OpenTelemetry specification, "Span Limits"). Lists are cut in place, and then the texts of the attributes that are
//! kept.

ghost use Rattle.std.specs.Prelude.{◌≡◌, ◌-◌, ◌≤◌, ◌⊎◌, ◌++◌, [], length, map, IfOk, IsOk, OnErr, OnOk, unwrap_or};
ghost use Rattle.std.specs.Option.{option_map};
ghost use Rattle.otel_sampling.specs.Sampling.{added_attributes};
ghost use Rattle.otel_export.specs.PlainSpanData.{cut_at, left_out};
ghost use Rattle.otel_pipeline.specs.SpanHistory as history;

use super::value_length::cut_each_attribute;
use opentelemetry::KeyValue;
use opentelemetry::trace::{Event, Link};
use otel_export::trace::{SpanEvents, SpanLinks};
use otel_sampling::trace::SpanLimits;
use std::alloc::{AllocError, Global};

/// Cuts a list at a limit. The answer is how many items were left out, at most the greatest `u32`.
pub(crate) fn cut<T: Drop>(items: &mut Vec<T>, limit: u32) -> u32
    ensures cut { items.new.items ≡ cut_at limit items.old.items }
    ensures left_out { result ≡ left_out limit items.old.items }
{
    let left_out = items.len().saturating_sub(limit as usize);
    items.truncate(limit as usize);
    u32::try_from(left_out).unwrap_or(u32::MAX)
}

/// Adds an item where there is room under the limit, and else drops it, which takes no memory, and counts it beside
/// those that were dropped before. The count stops at the greatest `u32`.
pub(crate) fn push_within<T: Drop>(
    items: &mut Vec<T>,
    dropped: &mut u32,
    limit: u32,
    item: T,
) -> Result<(), AllocError>
    ensures grown { OnOk result (items.new.items ≡ history.grown_within limit items.old.items item) }
    ensures counted { OnOk result (dropped.new ≡ history.left_out_with limit items.old.items dropped.old) }
    ensures err { OnErr result ((items.new.items ≡ items.old.items) × (dropped.new ≡ dropped.old)) }
    ensures full { limit ≤ length items.old.items → IsOk result }
{
    if items.len() < limit as usize {
        items.reserve(1)?;
        items.push_reserved(item);
    } else {
        *dropped = dropped.saturating_add(1);
    }
    Ok(())
}

/// Adds attributes after those that are there as far as there is room under the limit, and drops the others, which are
/// counted beside those that were dropped before. Of those that are kept the texts are cut.
pub(crate) fn append_within(
    attributes: &mut Vec<KeyValue>,
    dropped: &mut u32,
    limits: &SpanLimits,
    mut added: Vec<KeyValue>,
) -> Result<(), AllocError>
    ensures grown { OnOk result (attributes.new.items
        ≡ history.grown_by limits.now attributes.old.items added.items) }
    ensures counted { OnOk result (dropped.new
        ≡ history.left_out_by limits.now.max_attributes_per_span attributes.old.items added.items dropped.old) }
    ensures err { OnErr result ((attributes.new.items ≡ attributes.old.items) × (dropped.new ≡ dropped.old)) }
    ensures full { limits.now.max_attributes_per_span ≤ length attributes.old.items → IsOk result }
    ensures none { added.items ≡ [] → IsOk result }
{
    let room = room_after(attributes, limits.max_attributes_per_span);
    let left_out = cut(&mut added, room);
    cut_each_attribute(&mut added, limits);
    if !added.is_empty() {
        attributes.append(&mut added)?;
    }
    *dropped = dropped.saturating_add(left_out);
    Ok(())
}

/// How many items find room after these under a limit.
fn room_after<T>(items: &[T], limit: u32) -> u32
    ensures { result ≡ limit - length items.now }
{
    limit.saturating_sub(u32::try_from(items.len()).unwrap_or(u32::MAX))
}

/// What is kept of the attributes that a span is given at its start, those of its builder in front of those that the
/// sampler adds; and how many were left out.
pub(crate) fn attributes_within(
    alloc: Global,
    given: Option<Vec<KeyValue>>,
    added: Option<Vec<KeyValue>>,
    limits: &SpanLimits,
) -> Result<(Vec<KeyValue>, u32), AllocError>
    ensures cut { IfOk result (λ answer. answer.0.items ≡ history.attributes_within limits.now
        limits.now.max_attributes_per_span (added_attributes given ++ added_attributes added)) }
    ensures left_out { IfOk result (λ answer. answer.1
        ≡ left_out limits.now.max_attributes_per_span (added_attributes given ++ added_attributes added)) }
    ensures free { (added_attributes given ≡ []) ⊎ (added_attributes added ≡ []) → IsOk result }
{
    if given.is_none() && added.is_none() {
        return Ok((Vec::new(alloc), 0));
    }
    let given = given.unwrap_or(Vec::new(alloc));
    let added = added.unwrap_or(Vec::new(alloc));
    let (mut attributes, left_out) = joined_within(given, added, limits.max_attributes_per_span)?;
    cut_each_attribute(&mut attributes, limits);
    Ok((attributes, left_out))
}

/// Two lists joined and cut at a limit, and how many items were left out. Where one is empty the other one comes back
/// as it was made, with its room.
fn joined_within<T: Drop>(
    mut front: Vec<T>,
    mut back: Vec<T>,
    limit: u32,
) -> Result<(Vec<T>, u32), AllocError>
    ensures cut { IfOk result (λ answer. answer.0.items ≡ cut_at limit (front.items ++ back.items)) }
    ensures left_out { IfOk result (λ answer. answer.1 ≡ left_out limit (front.items ++ back.items)) }
    ensures free { (front.items ≡ []) ⊎ (back.items ≡ []) → IsOk result }
{
    if back.is_empty() {
        let left_out = cut(&mut front, limit);
        return Ok((front, left_out));
    }
    if front.is_empty() {
        let left_out = cut(&mut back, limit);
        return Ok((back, left_out));
    }
    let left_out = cut(&mut front, limit);
    let room = limit.saturating_sub(front.len() as u32);
    let left_out_after = cut(&mut back, room);
    front.append(&mut back)?;
    Ok((front, left_out.saturating_add(left_out_after)))
}

/// Cuts an event's own attributes and their texts; its count becomes how many attributes were cut.
pub(crate) fn cut_event(event: &mut Event, limits: SpanLimits)
    ensures { event.new ≡ history.event_within limits event.old }
{
    event.dropped_attributes_count = cut(&mut event.attributes, limits.max_attributes_per_event);
    cut_each_attribute(&mut event.attributes, &limits);
}

/// Cuts a link's own attributes and their texts; its count becomes how many attributes were cut.
pub(crate) fn cut_link(link: &mut Link, limits: SpanLimits)
    ensures { link.new ≡ history.link_within limits link.old }
{
    link.dropped_attributes_count = cut(&mut link.attributes, limits.max_attributes_per_link);
    cut_each_attribute(&mut link.attributes, &limits);
}

/// What is kept of the events that a span is given at its start.
pub(crate) fn events_within(
    alloc: Global,
    events: Option<Vec<Event>>,
    limits: SpanLimits,
) -> SpanEvents
    ensures { result ≡ history.events_within limits (unwrap_or (option_map (λ given. given.items) events) []) }
{
    let Some(mut events) = events else {
        return SpanEvents::new(alloc);
    };
    let dropped_count = cut(&mut events, limits.max_events_per_span);
    cut_each_event(&mut events, limits);
    SpanEvents {
        events,
        dropped_count,
    }
}

/// What is kept of the links that a span is given at its start.
pub(crate) fn links_within(alloc: Global, links: Option<Vec<Link>>, limits: SpanLimits) -> SpanLinks
    ensures { result ≡ history.links_within limits (unwrap_or (option_map (λ given. given.items) links) []) }
{
    let Some(mut links) = links else {
        return SpanLinks::new(alloc);
    };
    let dropped_count = cut(&mut links, limits.max_links_per_span);
    cut_each_link(&mut links, limits);
    SpanLinks {
        links,
        dropped_count,
    }
}

fn cut_each_event(events: &mut [Event], limits: SpanLimits)
    ensures { events.new ≡ map (history.event_within limits) events.old }
{
    for event in events.iter_mut() {
        cut_event(event, limits);
    }
}

fn cut_each_link(links: &mut [Link], limits: SpanLimits)
    ensures { links.new ≡ map (history.link_within limits) links.old }
{
    for link in links.iter_mut() {
        cut_link(link, limits);
    }
}
