//! Attributes that are gathered for what comes next.

ghost use Rattle.std.specs.Prelude.{◌≡◌, ◌==◌, List, map, not};
ghost use Rattle.opentelemetry.specs.Plain.{boolean, booleans, double, doubles, integer, integers, text, texts};
ghost use Rattle.otel_c.specs.Handles.{Answers, Gathers};
ghost use Rattle.otel_embed.specs.HostValues.{AreTexts, IsValueOf, truth_of};

use crate::handle::Handle;
use crate::status::{OTEL_CLOSED, status_of_result};
use otel_embed::HostValue;
use std::alloc::Global;

/// Gathers an attribute.
fn gather(alloc: Global, handle: &mut Handle, key: &[u8], value: HostValue<'_>) -> u32
    ensures { Answers result (Gathers key.now (IsValueOf value.entry)) (λ p q. q.inside ≡ p.inside)
        handle.old.held.pipeline handle.new.held.pipeline }
{
    let Some(mut pipeline) = handle.take(alloc) else {
        return OTEL_CLOSED;
    };
    let gathered = pipeline.inside.gather(key, value);
    handle.put(alloc, pipeline);
    status_of_result(gathered)
}

/// Gathers an attribute, a text, for what comes next.
#[unsafe(no_mangle)]
pub extern "C" fn otel_with_text(
    alloc: Global,
    handle: &mut Handle,
    key: &[u8],
    value: &[u8],
) -> u32
    ensures { Answers result (Gathers key.now (λ made. made ≡ text value.now)) (λ p q. q.inside ≡ p.inside)
        handle.old.held.pipeline handle.new.held.pipeline }
{
    gather(alloc, handle, key, HostValue::Text(value))
}

/// Gathers an attribute, an integer, for what comes next.
#[unsafe(no_mangle)]
pub extern "C" fn otel_with_integer(
    alloc: Global,
    handle: &mut Handle,
    key: &[u8],
    value: i64,
) -> u32
    ensures { Answers result (Gathers key.now (λ made. made ≡ integer value)) (λ p q. q.inside ≡ p.inside)
        handle.old.held.pipeline handle.new.held.pipeline }
{
    gather(alloc, handle, key, HostValue::Integer(value))
}

/// Gathers an attribute, a float, for what comes next. Of a NaN neither sign nor payload is kept.
#[unsafe(no_mangle)]
pub extern "C" fn otel_with_float(alloc: Global, handle: &mut Handle, key: &[u8], value: f64) -> u32
    ensures { Answers result (Gathers key.now (λ made. made ≡ double value)) (λ p q. q.inside ≡ p.inside)
        handle.old.held.pipeline handle.new.held.pipeline }
{
    gather(alloc, handle, key, HostValue::Float(value))
}

/// Gathers an attribute, a truth value, for what comes next: false where it is 0.
#[unsafe(no_mangle)]
pub extern "C" fn otel_with_bool(alloc: Global, handle: &mut Handle, key: &[u8], value: u32) -> u32
    ensures { Answers result (Gathers key.now (λ made. made ≡ boolean (not (value == 0))))
        (λ p q. q.inside ≡ p.inside) handle.old.held.pipeline handle.new.held.pipeline }
{
    gather(alloc, handle, key, HostValue::Truth(value != 0))
}

/// Gathers an attribute, a list of texts that stand one after another, for what comes next. Lengths that are not those
/// of all the bytes are `OTEL_BAD_ARGUMENT`.
#[unsafe(no_mangle)]
pub extern "C" fn otel_with_texts(
    alloc: Global,
    handle: &mut Handle,
    key: &[u8],
    values: &[u8],
    lengths: &[u64],
) -> u32
    ensures { Answers result (Gathers key.now (λ made. (list : List _) × AreTexts values.now lengths.now list ×
        (made ≡ texts list))) (λ p q. q.inside ≡ p.inside) handle.old.held.pipeline handle.new.held.pipeline }
{
    let value = HostValue::Texts {
        texts: values,
        lengths,
    };
    gather(alloc, handle, key, value)
}

/// Gathers an attribute, a list of integers, for what comes next.
#[unsafe(no_mangle)]
pub extern "C" fn otel_with_integers(
    alloc: Global,
    handle: &mut Handle,
    key: &[u8],
    values: &[i64],
) -> u32
    ensures { Answers result (Gathers key.now (λ made. made ≡ integers values.now)) (λ p q. q.inside ≡ p.inside)
        handle.old.held.pipeline handle.new.held.pipeline }
{
    gather(alloc, handle, key, HostValue::Integers(values))
}

/// Gathers an attribute, a list of floats, for what comes next.
#[unsafe(no_mangle)]
pub extern "C" fn otel_with_floats(
    alloc: Global,
    handle: &mut Handle,
    key: &[u8],
    values: &[f64],
) -> u32
    ensures { Answers result (Gathers key.now (λ made. made ≡ doubles values.now)) (λ p q. q.inside ≡ p.inside)
        handle.old.held.pipeline handle.new.held.pipeline }
{
    gather(alloc, handle, key, HostValue::Floats(values))
}

/// Gathers an attribute, a list of truth values, for what comes next.
#[unsafe(no_mangle)]
pub extern "C" fn otel_with_bools(
    alloc: Global,
    handle: &mut Handle,
    key: &[u8],
    values: &[u8],
) -> u32
    ensures { Answers result (Gathers key.now (λ made. made ≡ booleans (map truth_of values.now)))
        (λ p q. q.inside ≡ p.inside) handle.old.held.pipeline handle.new.held.pipeline }
{
    gather(alloc, handle, key, HostValue::Truths(values))
}
