//! What is left out of a document: items of lists that do not read, each named by its place.

use crate::fault::Fault;
use opentelemetry::SpanId;

/// A list of which an item that does not read is left out. A resource is known by the number of its item in
/// `resourceSpans`, a scope by that of its own in `scopeSpans`, each from 1.
#[derive(Clone, Copy, Debug, PartialEq, Eq)]
pub enum ItemList {
    /// The items of `resourceSpans`, with all their spans.
    ResourceSpans,
    /// The members `resource` of these alone.
    Resources,
    /// The attributes of a resource.
    ResourceAttributes(u64),
    /// The items of `scopeSpans` of a resource.
    ScopeSpans(u64),
    /// The spans of a resource and a scope of it.
    Spans(u64, u64),
    SpanAttributes(SpanId),
    SpanEvents(SpanId),
    /// The attributes of an event of a span, by its number there.
    EventAttributes(SpanId, u64),
    SpanLinks(SpanId),
    /// The attributes of a link of a span, by its number there.
    LinkAttributes(SpanId, u64),
}

/// An item of such a list, by its number there, from 1.
#[derive(Clone, Copy, Debug, PartialEq, Eq)]
pub struct ItemPlace {
    pub list: ItemList,
    pub number: u64,
}

/// An item that does not read, and why.
#[derive(Clone, Copy, Debug, PartialEq, Eq)]
pub struct LeftOut {
    pub item: ItemPlace,
    pub fault: Fault,
}
