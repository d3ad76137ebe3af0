//! The headers of a request as a host hands them in and takes them out: as bytes, and as lines.

ghost use Rattle.std.specs.Prelude.{◌≡◌, ◌++◌, ◌∷◌, [], IfOk, OnOk, codes, string_bytes};
ghost use Rattle.opentelemetry.specs.TextMap.{texts_of};
ghost use Rattle.otel_embed.specs.Headers.{AddsHeader, AreHeaders, IsContextOf, header_line, header_lines, plain_headers};

use crate::headers::context_of;
use crate::values::str_of;
use opentelemetry::Context;
use opentelemetry::propagation::{Extractor, Injector, MapCarrier};
use std::alloc::{AllocError, Global};

/// The headers of a request from another process; one without bytes is not there.
#[derive(Clone, Copy, Debug)]
pub struct HostHeaders<'a> {
    pub traceparent: &'a [u8],
    pub tracestate: &'a [u8],
    pub baggage: &'a [u8],
}

/// The context that the headers say.
pub(crate) fn host_context(alloc: Global, headers: HostHeaders<'_>) -> Result<Context, AllocError>
    ensures { IfOk result (IsContextOf (plain_headers headers.entry)) }
{
    let carrier = carrier_of(alloc, headers)?;
    context_of(alloc, &carrier)
}

/// The headers as a carrier. One that is no text says nothing.
fn carrier_of(alloc: Global, headers: HostHeaders<'_>) -> Result<MapCarrier, AllocError>
    ensures { IfOk result (λ carrier. AreHeaders (plain_headers headers.entry) (texts_of carrier)) }
{
    let mut carrier = MapCarrier::new(alloc);
    set_header(alloc, &mut carrier, "traceparent", headers.traceparent)?;
    set_header(alloc, &mut carrier, "tracestate", headers.tracestate)?;
    set_header(alloc, &mut carrier, "baggage", headers.baggage)?;
    Ok(carrier)
}

/// Sets a header that is not there to its text, where the bytes are one.
fn set_header(
    alloc: Global,
    carrier: &mut MapCarrier,
    name: &str,
    bytes: &[u8],
) -> Result<(), AllocError>
    ensures { OnOk result (AddsHeader name.now bytes.now (texts_of carrier.old) (texts_of carrier.new)) }
{
    match str_of(bytes) {
        Ok(text) if !text.is_empty() => carrier.set(name, String::from_str(alloc, text)?),
        _ => Ok(()),
    }
}

/// The headers of a carrier as lines, each `name: value`, a carriage return and a line feed.
pub(crate) fn lines_of(alloc: Global, carrier: &MapCarrier) -> Result<String, AllocError>
    ensures { IfOk result (λ lines. string_bytes lines ≡ header_lines (texts_of carrier.now)) }
{
    let mut lines = String::new(alloc);
    push_header(&mut lines, "traceparent", carrier)?;
    push_header(&mut lines, "tracestate", carrier)?;
    push_header(&mut lines, "baggage", carrier)?;
    Ok(lines)
}

/// Appends the line of a header that has a value.
fn push_header(lines: &mut String, name: &str, carrier: &MapCarrier) -> Result<(), AllocError>
    ensures { OnOk result (string_bytes lines.new
        ≡ string_bytes lines.old ++ header_line name.now (texts_of carrier.now name.now)) }
{
    match carrier.get(name) {
        Some(value) if !value.is_empty() => push_line(lines, name, value),
        _ => Ok(()),
    }
}

/// Appends `name: value`, a carriage return and a line feed.
fn push_line(lines: &mut String, name: &str, value: &str) -> Result<(), AllocError>
    ensures { OnOk result (string_bytes lines.new
        ≡ string_bytes lines.old ++ name.now ++ codes ": " ++ value.now ++ 13 ∷ 10 ∷ []) }
{
    lines.push_str(name)?;
    lines.push_str(": ")?;
    lines.push_str(value)?;
    lines.push_str("\r\n")
}
