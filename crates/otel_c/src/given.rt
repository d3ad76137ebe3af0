//! The calls that are handed their attributes, in place of those that were gathered, which stay.

ghost use Rattle.std.specs.Prelude.{◌≡◌, ◌≢◌, ◌∷◌, [], map};
ghost use Rattle.opentelemetry.specs.declared.trace.span_kind.SpanKind.{SpanKind as TheKinds};
ghost use Rattle.otel_pipeline.specs.SpanEdits.{new_event};
ghost use Rattle.otel_pipeline.specs.SpanHistory.{add_event, set_attribute};
ghost use Rattle.otel_c.specs.Handles.{Answers};
ghost use Rattle.otel_embed.specs.Headers.{IsContextOf};
ghost use Rattle.otel_embed.specs.HostValues.{AreAttributesOf, IsKind};
ghost use Rattle.otel_embed.specs.Pipelines.{EditsSpan, InPlaceOfGathered, LinksTo, LinksToRemote, Stays, taken};
ghost use Rattle.otel_embed.specs.Starts.{IsContextUnder, RefusesBeside, StartsIn, asked_start};

use crate::handle::Handle;
use crate::status::{OTEL_CLOSED, status_of_result, write_number};
use opentelemetry::Moment;
use otel_embed::pipeline::HostInside;
use otel_embed::{HostAttribute, HostHeaders};
use otel_pipeline::trace::Provides;
use std::alloc::Global;

/// Starts a span as `otel_start` does, with these attributes.
#[unsafe(no_mangle)]
pub extern "C" fn otel_start_with(
    alloc: Global,
    handle: &mut Handle,
    tracer: u64,
    parent: u64,
    kind: u32,
    name: &[u8],
    moment: u64,
    attributes: &[HostAttribute<'_>],
    key: &mut u64,
) -> u32
    ensures answers { Answers result (λ p q. (asked : TheKinds) × IsKind kind asked × InPlaceOfGathered
        (AreAttributesOf attributes.now) (λ a b. StartsIn ⟦<HostInside as Provides>⟧.calls
        (IsContextUnder a.spans parent) a (asked_start tracer asked moment name.now) key.new b) p.inside q.inside)
        (λ p q. RefusesBeside ⟦<HostInside as Provides>⟧.calls p.inside q.inside)
        handle.old.held.pipeline handle.new.held.pipeline }
    ensures refused { result ≢ 0 → key.new ≡ key.old }
{
    let Some(mut pipeline) = handle.take(alloc) else {
        return OTEL_CLOSED;
    };
    let started = pipeline
        .inside
        .start_with(tracer, parent, kind, name, Moment(moment), attributes);
    handle.put(alloc, pipeline);
    write_number(started, key)
}

/// Starts a span as `otel_start_remote` does, with these attributes.
#[unsafe(no_mangle)]
pub extern "C" fn otel_start_remote_with(
    alloc: Global,
    handle: &mut Handle,
    tracer: u64,
    traceparent: &[u8],
    tracestate: &[u8],
    baggage: &[u8],
    kind: u32,
    name: &[u8],
    moment: u64,
    attributes: &[HostAttribute<'_>],
    key: &mut u64,
) -> u32
    ensures answers { Answers result (λ p q. (asked : TheKinds) × IsKind kind asked × InPlaceOfGathered
        (AreAttributesOf attributes.now) (λ a b. StartsIn ⟦<HostInside as Provides>⟧.calls (IsContextOf (record {
          traceparent = traceparent.now;
          tracestate = tracestate.now;
          baggage = baggage.now;
        })) a (asked_start tracer asked moment name.now) key.new b) p.inside q.inside)
        (λ p q. RefusesBeside ⟦<HostInside as Provides>⟧.calls p.inside q.inside)
        handle.old.held.pipeline handle.new.held.pipeline }
    ensures refused { result ≢ 0 → key.new ≡ key.old }
{
    let Some(mut pipeline) = handle.take(alloc) else {
        return OTEL_CLOSED;
    };
    let headers = HostHeaders {
        traceparent,
        tracestate,
        baggage,
    };
    let started = pipeline
        .inside
        .start_remote_with(tracer, headers, kind, name, Moment(moment), attributes);
    handle.put(alloc, pipeline);
    write_number(started, key)
}

/// Sets these attributes.
#[unsafe(no_mangle)]
pub extern "C" fn otel_set_attributes_with(
    alloc: Global,
    handle: &mut Handle,
    span: u64,
    attributes: &[HostAttribute<'_>],
) -> u32
    ensures { Answers result (λ p q. InPlaceOfGathered (AreAttributesOf attributes.now)
        (λ a b. EditsSpan (taken a) span (map set_attribute a.gathered) b) p.inside q.inside)
        (λ p q. Stays p.inside q.inside) handle.old.held.pipeline handle.new.held.pipeline }
{
    let Some(mut pipeline) = handle.take(alloc) else {
        return OTEL_CLOSED;
    };
    let set = pipeline.inside.set_attributes_with(span, attributes);
    handle.put(alloc, pipeline);
    status_of_result(set)
}

/// Adds an event with these attributes.
#[unsafe(no_mangle)]
pub extern "C" fn otel_add_event_with(
    alloc: Global,
    handle: &mut Handle,
    span: u64,
    name: &[u8],
    moment: u64,
    attributes: &[HostAttribute<'_>],
) -> u32
    ensures { Answers result (λ p q. InPlaceOfGathered (AreAttributesOf attributes.now) (λ a b.
        EditsSpan (taken a) span (add_event (new_event name.now moment a.gathered) ∷ []) b) p.inside q.inside)
        (λ p q. Stays p.inside q.inside) handle.old.held.pipeline handle.new.held.pipeline }
{
    let Some(mut pipeline) = handle.take(alloc) else {
        return OTEL_CLOSED;
    };
    let added = pipeline
        .inside
        .add_event_with(span, name, Moment(moment), attributes);
    handle.put(alloc, pipeline);
    status_of_result(added)
}

/// Adds a link to another open span, with these attributes.
#[unsafe(no_mangle)]
pub extern "C" fn otel_add_link_with(
    alloc: Global,
    handle: &mut Handle,
    span: u64,
    linked: u64,
    attributes: &[HostAttribute<'_>],
) -> u32
    ensures { Answers result (λ p q. InPlaceOfGathered (AreAttributesOf attributes.now)
        (λ a b. LinksTo a span linked b) p.inside q.inside)
        (λ p q. Stays p.inside q.inside) handle.old.held.pipeline handle.new.held.pipeline }
{
    let Some(mut pipeline) = handle.take(alloc) else {
        return OTEL_CLOSED;
    };
    let added = pipeline.inside.add_link_with(span, linked, attributes);
    handle.put(alloc, pipeline);
    status_of_result(added)
}

/// Adds a link to the span that these headers name, with these attributes.
#[unsafe(no_mangle)]
pub extern "C" fn otel_add_remote_link_with(
    alloc: Global,
    handle: &mut Handle,
    span: u64,
    traceparent: &[u8],
    tracestate: &[u8],
    attributes: &[HostAttribute<'_>],
) -> u32
    ensures { Answers result (λ p q. InPlaceOfGathered (AreAttributesOf attributes.now) (λ a b.
        LinksToRemote a span (record {
          traceparent = traceparent.now;
          tracestate = tracestate.now;
          baggage = [];
        }) b) p.inside q.inside) (λ p q. Stays p.inside q.inside) handle.old.held.pipeline handle.new.held.pipeline }
{
    let Some(mut pipeline) = handle.take(alloc) else {
        return OTEL_CLOSED;
    };
    let headers = HostHeaders {
        traceparent,
        tracestate,
        baggage: &[],
    };
    let added = pipeline
        .inside
        .add_remote_link_with(span, headers, attributes);
    handle.put(alloc, pipeline);
    status_of_result(added)
}
