//! Edits of a span.

ghost use Rattle.std.specs.Prelude.{◌≡◌, ◌==◌, ◌≤◌, ◌∷◌, [], IfSome, IsSome, map, not};
ghost use Rattle.otel_embed.specs.Keys.{span_at};
ghost use Rattle.opentelemetry.specs.Plain.{PlainStatus, boolean, double, integer, text};
ghost use Rattle.otel_pipeline.specs.Exceptions.{exception_event};
ghost use Rattle.otel_pipeline.specs.SpanEdits.{new_event};
ghost use Rattle.otel_pipeline.specs.SpanHistory.{add_event, set_attribute, set_status, update_name};
ghost use Rattle.otel_c.specs.Handles.{Answers, SetsOn};
ghost use Rattle.otel_embed.specs.HostValues.{IsStatus, IsValueOf, host_exception};
ghost use Rattle.otel_embed.specs.Pipelines.{EditsSpan, LinksTo, Stays, taken};

use crate::handle::Handle;
use crate::status::{OTEL_CLOSED, status_of_result};
use opentelemetry::Moment;
use otel_embed::HostValue;
use std::alloc::Global;

/// Sets an attribute.
fn set(alloc: Global, handle: &mut Handle, span: u64, key: &[u8], value: HostValue<'_>) -> u32
    ensures { Answers result (SetsOn span key.now (IsValueOf value.entry)) (λ p q. Stays p.inside q.inside)
        handle.old.held.pipeline handle.new.held.pipeline }
{
    let Some(mut pipeline) = handle.take(alloc) else {
        return OTEL_CLOSED;
    };
    let set = pipeline.inside.set(span, key, value);
    handle.put(alloc, pipeline);
    status_of_result(set)
}

/// Sets an attribute of a span, a text.
#[unsafe(no_mangle)]
pub extern "C" fn otel_set_text(
    alloc: Global,
    handle: &mut Handle,
    span: u64,
    key: &[u8],
    value: &[u8],
) -> u32
    ensures { Answers result (SetsOn span key.now (λ made. made ≡ text value.now)) (λ p q. Stays p.inside q.inside)
        handle.old.held.pipeline handle.new.held.pipeline }
{
    set(alloc, handle, span, key, HostValue::Text(value))
}

/// Sets an attribute of a span, an integer.
#[unsafe(no_mangle)]
pub extern "C" fn otel_set_integer(
    alloc: Global,
    handle: &mut Handle,
    span: u64,
    key: &[u8],
    value: i64,
) -> u32
    ensures { Answers result (SetsOn span key.now (λ made. made ≡ integer value)) (λ p q. Stays p.inside q.inside)
        handle.old.held.pipeline handle.new.held.pipeline }
{
    set(alloc, handle, span, key, HostValue::Integer(value))
}

/// Sets an attribute of a span, a float.
#[unsafe(no_mangle)]
pub extern "C" fn otel_set_float(
    alloc: Global,
    handle: &mut Handle,
    span: u64,
    key: &[u8],
    value: f64,
) -> u32
    ensures { Answers result (SetsOn span key.now (λ made. made ≡ double value)) (λ p q. Stays p.inside q.inside)
        handle.old.held.pipeline handle.new.held.pipeline }
{
    set(alloc, handle, span, key, HostValue::Float(value))
}

/// Sets an attribute of a span, a truth value: false where it is 0.
#[unsafe(no_mangle)]
pub extern "C" fn otel_set_bool(
    alloc: Global,
    handle: &mut Handle,
    span: u64,
    key: &[u8],
    value: u32,
) -> u32
    ensures { Answers result (SetsOn span key.now (λ made. made ≡ boolean (not (value == 0))))
        (λ p q. Stays p.inside q.inside) handle.old.held.pipeline handle.new.held.pipeline }
{
    set(alloc, handle, span, key, HostValue::Truth(value != 0))
}

/// Sets the attributes that were gathered.
#[unsafe(no_mangle)]
pub extern "C" fn otel_set_attributes(alloc: Global, handle: &mut Handle, span: u64) -> u32
    ensures { Answers result (λ p q. EditsSpan (taken p.inside) span (map set_attribute p.inside.gathered) q.inside)
        (λ p q. Stays (taken p.inside) q.inside) handle.old.held.pipeline handle.new.held.pipeline }
{
    let Some(mut pipeline) = handle.take(alloc) else {
        return OTEL_CLOSED;
    };
    let set = pipeline.inside.set_attributes(span);
    handle.put(alloc, pipeline);
    status_of_result(set)
}

/// Adds an event, with the attributes that were gathered.
#[unsafe(no_mangle)]
pub extern "C" fn otel_add_event(
    alloc: Global,
    handle: &mut Handle,
    span: u64,
    name: &[u8],
    moment: u64,
) -> u32
    ensures { Answers result (λ p q. EditsSpan (taken p.inside) span (add_event (new_event name.now moment
        p.inside.gathered) ∷ []) q.inside) (λ p q. Stays (taken p.inside) q.inside) handle.old.held.pipeline
        handle.new.held.pipeline }
{
    let Some(mut pipeline) = handle.take(alloc) else {
        return OTEL_CLOSED;
    };
    let added = pipeline.inside.add_event(span, name, Moment(moment));
    handle.put(alloc, pipeline);
    status_of_result(added)
}

/// Adds an event `exception`; an empty type or stack trace is none.
#[unsafe(no_mangle)]
pub extern "C" fn otel_record_exception(
    alloc: Global,
    handle: &mut Handle,
    span: u64,
    exception_type: &[u8],
    message: &[u8],
    stacktrace: &[u8],
    moment: u64,
) -> u32
    ensures { Answers result (λ p q. EditsSpan p.inside span (add_event (exception_event (host_exception
        exception_type.now message.now stacktrace.now) moment) ∷ []) q.inside) (λ p q. Stays p.inside q.inside)
        handle.old.held.pipeline handle.new.held.pipeline }
{
    let Some(mut pipeline) = handle.take(alloc) else {
        return OTEL_CLOSED;
    };
    let recorded = pipeline
        .inside
        .record_exception(span, exception_type, message, stacktrace, Moment(moment));
    handle.put(alloc, pipeline);
    status_of_result(recorded)
}

/// Adds a link to another open span, with the attributes that were gathered.
#[unsafe(no_mangle)]
pub extern "C" fn otel_add_link(alloc: Global, handle: &mut Handle, span: u64, linked: u64) -> u32
    ensures { Answers result (λ p q. LinksTo p.inside span linked q.inside) (λ p q. Stays (taken p.inside) q.inside)
        handle.old.held.pipeline handle.new.held.pipeline }
{
    let Some(mut pipeline) = handle.take(alloc) else {
        return OTEL_CLOSED;
    };
    let added = pipeline.inside.add_link(span, linked);
    handle.put(alloc, pipeline);
    status_of_result(added)
}

/// Sets how the operation went; only an error has a description.
#[unsafe(no_mangle)]
pub extern "C" fn otel_set_status(
    alloc: Global,
    handle: &mut Handle,
    span: u64,
    code: u32,
    description: &[u8],
) -> u32
    ensures answers { Answers result (λ p q. (status : PlainStatus) × IsStatus code description.now status
        × EditsSpan p.inside span (set_status status ∷ []) q.inside)
        (λ p q. Stays p.inside q.inside) handle.old.held.pipeline handle.new.held.pipeline }
    ensures free { code ≤ 1 → IfSome handle.old.held.pipeline (λ p.
        IsSome (span_at p.inside.spans span) → result ≡ 0) }
{
    let Some(mut pipeline) = handle.take(alloc) else {
        return OTEL_CLOSED;
    };
    let set = pipeline.inside.set_status(span, code, description);
    handle.put(alloc, pipeline);
    status_of_result(set)
}

/// Gives a span another name.
#[unsafe(no_mangle)]
pub extern "C" fn otel_update_name(
    alloc: Global,
    handle: &mut Handle,
    span: u64,
    name: &[u8],
) -> u32
    ensures { Answers result (λ p q. EditsSpan p.inside span (update_name name.now ∷ []) q.inside)
        (λ p q. Stays p.inside q.inside) handle.old.held.pipeline handle.new.held.pipeline }
{
    let Some(mut pipeline) = handle.take(alloc) else {
        return OTEL_CLOSED;
    };
    let updated = pipeline.inside.update_name(span, name);
    handle.put(alloc, pipeline);
    status_of_result(updated)
}
