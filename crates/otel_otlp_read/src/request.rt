//! The spans of a request: of each resource, of each of its scopes, in order. What of it does not read is left out, and
//! named by its place.

ghost use Rattle.std.specs.Prelude.{◌≡◌, IfOk, OnOk, map};
ghost use Rattle.json.specs.Value.{value_view};
ghost use Rattle.otel_otlp_read.specs.declared.left_out.ItemList.TheVariants.{Spans};
ghost use Rattle.otel_otlp_read.specs.Kept.{and_kept, kept_by, left, none_kept};
ghost use Rattle.otel_otlp_read.specs.Reading.{Gives};
ghost use Rattle.otel_otlp_read.specs.Requests.{alone_in, are_resources, has, is_empty_object, is_misnamed, is_request};
ghost use Rattle.otel_otlp_read.specs.Requests.{is_resource, known_request, read_request, resource_items};
ghost use Rattle.otel_otlp_read.specs.Requests.{resource_spans_in, resources_in, scope_items, scope_spans_in, scopes_in};
ghost use Rattle.otel_otlp_read.specs.Requests.{span_at, well_named};

use crate::fault::{Fault, ReadError};
use crate::left_out::{ItemList, ItemPlace, LeftOut};
use crate::member::{given, list, object, own_name};
use crate::resource::{ReadPairs, pairs};
use crate::span::span;
use json::Value;
use otel_shown::{ShownResource, ShownSpan};
use std::alloc::{AllocError, Global};
use std::marker::Model;
use std::slice;

/// The spans of a request, and what of it does not read.
#[derive(Debug, Drop)]
pub struct ReadSpans {
    pub spans: Vec<ShownSpan>,
    pub left_out: Vec<LeftOut>,
}

impl Model for ReadSpans {
    ghost use Rattle.otel_shown.specs.Shown.{PlainShownSpan};
    ghost use Rattle.otel_otlp_read.specs.Kept.{Kept};

    ghost Value = { Kept PlainShownSpan };

    ghost view = { λ read. record { kept = read.spans.items; left_out = read.left_out.items } };
}

impl ReadSpans {
    /// None.
    fn new(alloc: Global) -> ReadSpans
        ensures { result ≡ none_kept }
    {
        ReadSpans {
            spans: Vec::new(alloc),
            left_out: Vec::new(alloc),
        }
    }

    /// Names an item that does not read.
    fn leave_out(&mut self, item: ItemPlace, fault: Fault) -> Result<(), AllocError>
        ensures { OnOk result (self.new ≡ and_kept self.old (left item fault)) }
    {
        self.left_out.push(LeftOut { item, fault })?;
        Ok(())
    }
}

/// Appends the span at a place.
fn push_span(
    alloc: Global,
    out: &mut ReadSpans,
    shown: &ShownResource,
    item: ItemPlace,
    value: &Value,
) -> Result<(), AllocError>
    ensures { OnOk result (out.new
        ≡ and_kept out.old (span_at shown.now item.list item.number (value_view value.now))) }
{
    match span(alloc, shown, value) {
        Ok(read) => {
            out.left_out.extend_from_slice(&read.left_out)?;
            out.spans.push(read.span)?;
            Ok(())
        }
        Err(ReadError::Fault(fault)) => out.leave_out(item, fault),
        Err(ReadError::OutOfMemory) => Err(AllocError),
    }
}

/// Which scope of which resource, by their numbers.
#[derive(Clone, Copy)]
struct ScopePlace {
    resource: u64,
    scope: u64,
}

/// Appends the spans of a list.
fn push_spans(
    alloc: Global,
    out: &mut ReadSpans,
    shown: &ShownResource,
    scope: ScopePlace,
    items: &[Value],
) -> Result<(), AllocError>
    ensures { OnOk result (out.new ≡ and_kept out.old
        (kept_by (span_at shown.now (Spans scope.resource scope.scope)) 1 (map value_view items.now))) }
{
    for (place, item) in items.iter().enumerate() {
        let list = ItemList::Spans(scope.resource, scope.scope);
        let number = place as u64 + 1;
        push_span(alloc, out, shown, ItemPlace { list, number }, item)?;
    }
    Ok(())
}

/// The spans of a scope, as they stand.
#[tactic(auto, unfolding(crate::specs::Requests::scope_items))]
fn scope_items<'v, 'a>(scope: &'v Value<'a>) -> Result<&'v [Value<'a>], ReadError>
    ensures { Gives (λ items. map value_view items.now) result (scope_items (value_view scope.now)) }
{
    object(scope, Fault::ScopeSpansItem)?;
    list(scope, "spans", Fault::SpansType)
}

/// Appends the spans of a scope.
#[tactic(auto, unfolding(crate::specs::Requests::scope_spans_in))]
fn push_scope(
    alloc: Global,
    out: &mut ReadSpans,
    shown: &ShownResource,
    place: ScopePlace,
    scope: &Value,
) -> Result<(), AllocError>
    ensures { OnOk result (out.new
        ≡ and_kept out.old (scope_spans_in shown.now place.resource place.scope (value_view scope.now))) }
{
    match scope_items(scope) {
        Ok(items) => push_spans(alloc, out, shown, place, items),
        Err(ReadError::Fault(fault)) => {
            let list = ItemList::ScopeSpans(place.resource);
            let number = place.scope;
            out.leave_out(ItemPlace { list, number }, fault)
        }
        Err(ReadError::OutOfMemory) => Err(AllocError),
    }
}

/// Appends the spans of the scopes of a resource.
fn push_scopes(
    alloc: Global,
    out: &mut ReadSpans,
    shown: &ShownResource,
    resource: u64,
    items: &[Value],
) -> Result<(), AllocError>
    ensures { OnOk result (out.new
        ≡ and_kept out.old (kept_by (scope_spans_in shown.now resource) 1 (map value_view items.now))) }
{
    for (place, item) in items.iter().enumerate() {
        let scope = place as u64 + 1;
        push_scope(alloc, out, shown, ScopePlace { resource, scope }, item)?;
    }
    Ok(())
}

/// Whether `scopeSpans` has the name that older versions give it.
fn is_misnamed(resource_spans: &Value) -> bool
    ensures { result ≡ is_misnamed (value_view resource_spans.now) }
{
    given(resource_spans, "instrumentationLibrarySpans").is_some()
}

/// Refuses such a name.
fn well_named(resource_spans: &Value) -> Result<(), ReadError>
    ensures { Gives (λ _. tt) result (well_named (value_view resource_spans.now)) }
{
    if is_misnamed(resource_spans) {
        return Err(ReadError::Fault(Fault::ScopeSpansName));
    }
    Ok(())
}

/// The scopes of a resource, as they stand.
#[tactic(auto, unfolding(crate::specs::Requests::resource_items))]
fn resource_items<'v, 'a>(resource_spans: &'v Value<'a>) -> Result<&'v [Value<'a>], ReadError>
    ensures { Gives (λ items. map value_view items.now) result
        (resource_items (value_view resource_spans.now)) }
{
    object(resource_spans, Fault::ResourceSpansItem)?;
    well_named(resource_spans)?;
    list(resource_spans, "scopeSpans", Fault::ScopeSpansType)
}

/// Appends the spans of scopes, of a resource of these attributes.
fn push_of(
    alloc: Global,
    out: &mut ReadSpans,
    read: &ReadPairs,
    resource: u64,
    items: &[Value],
) -> Result<(), AllocError>
    ensures { OnOk result (out.new
        ≡ and_kept out.old (scopes_in read.now resource (map value_view items.now))) }
{
    let shown = read.shown(alloc)?;
    out.left_out.extend_from_slice(&read.left_out)?;
    push_scopes(alloc, out, &shown, resource, items)
}

/// Appends the spans of a resource, the one of this number.
#[tactic(auto, unfolding(crate::specs::Requests::resource_spans_in))]
fn push_resource(
    alloc: Global,
    out: &mut ReadSpans,
    number: u64,
    resource_spans: &Value,
) -> Result<(), AllocError>
    ensures { OnOk result (out.new
        ≡ and_kept out.old (resource_spans_in number (value_view resource_spans.now))) }
{
    match resource_items(resource_spans) {
        Ok(items) => {
            let read = pairs(alloc, number, resource_spans)?;
            push_of(alloc, out, &read, number, items)
        }
        Err(ReadError::Fault(fault)) => {
            let list = ItemList::ResourceSpans;
            out.leave_out(ItemPlace { list, number }, fault)
        }
        Err(ReadError::OutOfMemory) => Err(AllocError),
    }
}

/// The spans of resources.
fn each_resource(alloc: Global, items: &[Value]) -> Result<ReadSpans, AllocError>
    ensures { IfOk result (λ read. read ≡ kept_by resource_spans_in 1 (map value_view items.now)) }
{
    let mut out = ReadSpans::new(alloc);
    for (place, item) in items.iter().enumerate() {
        push_resource(alloc, &mut out, place as u64 + 1, item)?;
    }
    Ok(out)
}

/// Whether a value is an object that says nothing.
fn is_empty_object(value: &Value) -> bool
    ensures { result ≡ is_empty_object (value_view value.now) }
{
    match value {
        Value::Object(members) => members.as_slice().is_empty(),
        _ => false,
    }
}

/// Whether an object has a member of a name, or of protobuf's own for it, also one that is null.
#[tactic(auto, unfolding(crate::specs::Requests::has))]
fn has(object: &Value, name: &str) -> bool
    ensures { result ≡ has name.now (value_view object.now) }
{
    if object.get(name).is_some() {
        return true;
    }
    match own_name(name) {
        Some(own) => object.get(own).is_some(),
        None => false,
    }
}

/// Whether this is what is said of a resource, without a request around it.
#[tactic(auto, unfolding(crate::specs::Requests::is_resource))]
fn is_resource(request: &Value) -> bool
    ensures { result ≡ is_resource (value_view request.now) }
{
    has(request, "scopeSpans")
        || has(request, "scopeMetrics")
        || has(request, "scopeLogs")
        || has(request, "scopeProfiles")
}

/// The same of resources.
#[tactic(auto, unfolding(crate::specs::Requests::are_resources))]
fn are_resources(request: &Value) -> bool
    ensures { result ≡ are_resources (value_view request.now) }
{
    has(request, "resourceSpans")
        || has(request, "resourceMetrics")
        || has(request, "resourceLogs")
        || has(request, "resourceProfiles")
}

/// Whether this is a request: one that says nothing, or something of resources, or of one alone.
fn is_request(request: &Value) -> bool
    ensures { result ≡ is_request (value_view request.now) }
{
    is_empty_object(request) || are_resources(request) || is_resource(request)
}

/// Refuses what is no request.
fn known_request(request: &Value) -> Result<(), ReadError>
    ensures { Gives (λ _. tt) result (known_request (value_view request.now)) }
{
    if is_request(request) {
        return Ok(());
    }
    Err(ReadError::Fault(Fault::ResourceSpansMissing))
}

/// A resource that stands alone, as logging exporters write it.
fn alone_in<'v, 'a>(request: &'v Value<'a>) -> &'v [Value<'a>]
    ensures { map value_view result.now ≡ alone_in (value_view request.now) }
{
    let alone = slice::from_ref(request);
    if has(request, "scopeSpans") {
        alone
    } else {
        &alone[..0]
    }
}

/// The resources of a request, as they stand, or the one that stands alone.
fn resources_in<'v, 'a>(request: &'v Value<'a>) -> Result<&'v [Value<'a>], ReadError>
    ensures { Gives (λ items. map value_view items.now) result (resources_in (value_view request.now)) }
{
    if has(request, "resourceSpans") {
        list(request, "resourceSpans", Fault::ResourceSpansType)
    } else {
        Ok(alone_in(request))
    }
}

/// The spans of an `ExportTraceServiceRequest`, in order; none where it says nothing of spans, as those of metrics and
/// logs. What of it does not read is left out. An error is why it is no request, or that memory ran out.
#[tactic(auto, unfolding(crate::specs::Requests::read_request))]
pub fn read_request(alloc: Global, request: &Value) -> Result<ReadSpans, ReadError>
    ensures { Gives (λ read. read) result (read_request (value_view request.now)) }
{
    object(request, Fault::RequestType)?;
    known_request(request)?;
    let items = resources_in(request)?;
    Ok(each_resource(alloc, items)?)
}
