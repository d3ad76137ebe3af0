//! Spans between processes, by headers.

ghost use Rattle.std.specs.Prelude.{◌≡◌, ◌≢◌, ◌⊎◌, [], List, ℕ};
ghost use Rattle.opentelemetry.specs.declared.trace.span_kind.SpanKind.{SpanKind as TheKinds};
ghost use Rattle.otel_c.specs.Handles.{Answers, CopiesText, Holds};
ghost use Rattle.otel_embed.specs.Headers.{IsContextOf};
ghost use Rattle.otel_embed.specs.HostValues.{IsKind};
ghost use Rattle.otel_embed.specs.Pipelines.{LinksToRemote, SaysHeaders, Stays, taken};
ghost use Rattle.otel_embed.specs.Starts.{RefusesIn, StartsIn, asked_start};

use crate::handle::Handle;
use crate::status::{OTEL_CLOSED, status_of, status_of_result, write_number, write_text};
use opentelemetry::Moment;
use otel_embed::HostHeaders;
use otel_embed::pipeline::HostInside;
use otel_pipeline::trace::Provides;
use std::alloc::Global;

/// Starts a span as a child of the one that these headers name, or a root where they name none.
#[unsafe(no_mangle)]
pub extern "C" fn otel_start_remote(
    alloc: Global,
    handle: &mut Handle,
    tracer: u64,
    traceparent: &[u8],
    tracestate: &[u8],
    baggage: &[u8],
    kind: u32,
    name: &[u8],
    moment: u64,
    key: &mut u64,
) -> u32
    ensures answers { Answers result (λ p q. (asked : TheKinds) × IsKind kind asked × StartsIn
        ⟦<HostInside as Provides>⟧.calls (IsContextOf (record {
          traceparent = traceparent.now;
          tracestate = tracestate.now;
          baggage = baggage.now;
        })) p.inside (asked_start tracer asked moment name.now) key.new q.inside)
        (λ p q. RefusesIn ⟦<HostInside as Provides>⟧.calls p.inside q.inside)
        handle.old.held.pipeline handle.new.held.pipeline }
    ensures refused { result ≢ 0 → key.new ≡ key.old }
{
    let Some(mut pipeline) = handle.take(alloc) else {
        return OTEL_CLOSED;
    };
    let headers = HostHeaders {
        traceparent,
        tracestate,
        baggage,
    };
    let started = pipeline
        .inside
        .start_remote(tracer, headers, kind, name, Moment(moment));
    handle.put(alloc, pipeline);
    write_number(started, key)
}

/// Adds a link to the span that these headers name; `OTEL_BAD_ARGUMENT` where they name none.
#[unsafe(no_mangle)]
pub extern "C" fn otel_add_remote_link(
    alloc: Global,
    handle: &mut Handle,
    span: u64,
    traceparent: &[u8],
    tracestate: &[u8],
) -> u32
    ensures { Answers result (λ p q. LinksToRemote p.inside span (record {
      traceparent = traceparent.now;
      tracestate = tracestate.now;
      baggage = [];
    }) q.inside) (λ p q. Stays (taken p.inside) q.inside) handle.old.held.pipeline handle.new.held.pipeline }
{
    let Some(mut pipeline) = handle.take(alloc) else {
        return OTEL_CLOSED;
    };
    let headers = HostHeaders {
        traceparent,
        tracestate,
        baggage: &[],
    };
    let added = pipeline.inside.add_remote_link(span, headers);
    handle.put(alloc, pipeline);
    status_of_result(added)
}

/// Writes the headers that hand a span on to another process, each `name: value` with a line end after it.
#[unsafe(no_mangle)]
pub extern "C" fn otel_inject(
    alloc: Global,
    handle: &mut Handle,
    span: u64,
    buffer: &mut [u8],
    text_length: &mut usize,
) -> u32
    ensures ok { (result ≡ 0) ⊎ (result ≡ 8) → Holds (λ p. (lines : List ℕ)
        × SaysHeaders p.inside span lines
        × CopiesText lines buffer.old result text_length.new buffer.new) handle.old.held.pipeline }
    ensures stays { handle.new.held.pipeline ≡ handle.old.held.pipeline }
    ensures refused { result ≢ 0 → buffer.new ≡ buffer.old }
{
    let Some(pipeline) = handle.take(alloc) else {
        return OTEL_CLOSED;
    };
    let headers = pipeline.inside.headers(span);
    handle.put(alloc, pipeline);
    match headers {
        Ok(text) => write_text(text.as_str(), buffer, text_length),
        Err(error) => status_of(error),
    }
}
