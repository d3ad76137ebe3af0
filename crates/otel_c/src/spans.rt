//! The life of a span: its start, who it is, its end.

ghost use Rattle.std.specs.Prelude.{◌≡◌, ◌≢◌, IfSome, IsSome};
ghost use Rattle.otel_c.specs.Handles.{Answers, Holds, ShowsIdentity};
ghost use Rattle.otel_embed.specs.Keys.{span_at};
ghost use Rattle.opentelemetry.specs.declared.trace.span_kind.SpanKind.{SpanKind as TheKinds};
ghost use Rattle.otel_embed.specs.HostValues.{IsKind};
ghost use Rattle.otel_embed.specs.Pipelines.{Abandons, EndNeedsNone, EndsSpan, Identifies};
ghost use Rattle.otel_embed.specs.Starts.{IsContextUnder, RefusesIn};
ghost use Rattle.otel_embed.specs.Pipelines.{Stays};
ghost use Rattle.otel_embed.specs.Starts.{StartsIn, asked_start};
ghost use Rattle.otel_embed.specs.declared.span_calls.SpanIdentity.{SpanIdentity as TheIdentity};

use crate::handle::Handle;
use crate::status::{OTEL_CLOSED, OTEL_OK, status_of, status_of_result, write_number};
use opentelemetry::Moment;
use otel_embed::SpanIdentity;
use otel_embed::pipeline::HostInside;
use otel_pipeline::trace::Provides;
use std::alloc::Global;

/// Who a span is, for C. The ids are numbers, whose high byte is the first of the id's text.
#[repr(C)]
#[derive(Clone, Copy)]
pub struct Identity {
    pub trace_id_high: u64,
    pub trace_id_low: u64,
    pub span_id: u64,
    pub trace_flags: u32,
    pub is_recording: u32,
}

fn identity_of(identity: SpanIdentity) -> Identity
    ensures { ShowsIdentity identity result }
{
    Identity {
        trace_id_high: (identity.trace_id >> 64) as u64,
        trace_id_low: (identity.trace_id & 0xffff_ffff_ffff_ffff) as u64,
        span_id: identity.span_id,
        trace_flags: u32::from(identity.trace_flags),
        is_recording: u32::from(identity.is_recording),
    }
}

/// Starts a span of a kind, a child of the span of the key `parent`, or a root where that is 0, with the attributes
/// that were gathered.
#[unsafe(no_mangle)]
pub extern "C" fn otel_start(
    alloc: Global,
    handle: &mut Handle,
    tracer: u64,
    parent: u64,
    kind: u32,
    name: &[u8],
    moment: u64,
    key: &mut u64,
) -> u32
    ensures answers { Answers result (λ p q. (asked : TheKinds) × IsKind kind asked × StartsIn
        ⟦<HostInside as Provides>⟧.calls (IsContextUnder p.inside.spans parent) p.inside
        (asked_start tracer asked moment name.now) key.new q.inside)
        (λ p q. RefusesIn ⟦<HostInside as Provides>⟧.calls p.inside q.inside)
        handle.old.held.pipeline handle.new.held.pipeline }
    ensures refused { result ≢ 0 → key.new ≡ key.old }
{
    let Some(mut pipeline) = handle.take(alloc) else {
        return OTEL_CLOSED;
    };
    let started = pipeline
        .inside
        .start(tracer, parent, kind, name, Moment(moment));
    handle.put(alloc, pipeline);
    write_number(started, key)
}

/// Says who a span is, and whether it records what it is told.
#[unsafe(no_mangle)]
pub extern "C" fn otel_identity(
    alloc: Global,
    handle: &mut Handle,
    span: u64,
    identity: &mut Identity,
) -> u32
    ensures ok { result ≡ 0 → Holds (λ p. (who : TheIdentity) × Identifies p.inside span who
        × ShowsIdentity who identity.new) handle.old.held.pipeline }
    ensures stays { handle.new.held.pipeline ≡ handle.old.held.pipeline }
    ensures refused { result ≢ 0 → identity.new ≡ identity.old }
{
    let Some(pipeline) = handle.take(alloc) else {
        return OTEL_CLOSED;
    };
    let found = pipeline.inside.identity(span);
    handle.put(alloc, pipeline);
    match found {
        Ok(found) => {
            *identity = identity_of(found);
            OTEL_OK
        }
        Err(error) => status_of(error),
    }
}

/// Ends a span, which is handed on for export where it is sampled. Its key names nothing from then on.
#[unsafe(no_mangle)]
pub extern "C" fn otel_end(alloc: Global, handle: &mut Handle, span: u64, moment: u64) -> u32
    ensures answers { Answers result
        (λ p q. EndsSpan ⟦<HostInside as Provides>⟧.calls.processor p.inside span moment q.inside)
        (λ p q. Stays p.inside q.inside) handle.old.held.pipeline handle.new.held.pipeline }
    ensures free { IfSome handle.old.held.pipeline (λ p. EndNeedsNone p.inside span → result ≡ 0) }
{
    let Some(mut pipeline) = handle.take(alloc) else {
        return OTEL_CLOSED;
    };
    let ended = pipeline.inside.end(span, Moment(moment));
    handle.put(alloc, pipeline);
    status_of_result(ended)
}

/// Ends a span without handing it on.
#[unsafe(no_mangle)]
pub extern "C" fn otel_abandon(alloc: Global, handle: &mut Handle, span: u64) -> u32
    ensures answers { Answers result (λ p q. Abandons p.inside span q.inside) (λ p q. Stays p.inside q.inside)
        handle.old.held.pipeline handle.new.held.pipeline }
    ensures free { IfSome handle.old.held.pipeline (λ p. IsSome (span_at p.inside.spans span) → result ≡ 0) }
{
    let Some(mut pipeline) = handle.take(alloc) else {
        return OTEL_CLOSED;
    };
    let abandoned = pipeline.inside.abandon(span);
    handle.put(alloc, pipeline);
    status_of_result(abandoned)
}
