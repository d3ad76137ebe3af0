//! What the span that is current is told of its request and of the response.

ghost use Rattle.std.specs.Prelude.{◌≡◌, ◌++◌, ◌∷◌, IfOk, string_bytes};
ghost use Rattle.otel_http.specs.Conventions.{method_name, route_edits, space};
ghost use Rattle.otel_http.specs.RequestSpans.{attribute_edits, status_edits};
ghost use Rattle.otel_http.specs.Telling.{SpanStays, TellsEach, TellsHere};

use crate::client::FIRST_ERROR;
use crate::conventions::{ERROR_TYPE, ROUTE, STATUS, method_name, text_attribute};
use http::{Method, StatusCode};
use opentelemetry::trace::Status;
use opentelemetry::{Key, KeyValue, Value};
use otel_pipeline::trace::SpanEdit;
use otel_scope::HoldsSpans;
use std::alloc::{AllocError, Global};

/// Tells the current span the route of its request, as `/users/{id}`: a text of the program's own, of which there are few.
/// The span is named after it. On an error it may have the route and its old name.
pub fn record_route<S: HoldsSpans>(
    scope: &mut S,
    method: &Method,
    route: &str,
) -> Result<(), AllocError>
    ensures tells { TellsHere S.HoldsSpans (route_edits method.now route.now) scope.old result scope.new }
    ensures stays { SpanStays (S.current scope.old).span (S.current scope.new).span }
{
    if !scope.current().is_recording() {
        return Ok(());
    }
    tell_route(scope, method, route)
}

/// The same where it records.
fn tell_route<S: HoldsSpans>(scope: &mut S, method: &Method, route: &str) -> Result<(), AllocError>
    ensures { TellsEach S.HoldsSpans (route_edits method.now route.now) scope.old result scope.new }
{
    let name = route_name(scope.alloc(), method, route)?;
    let attribute = text_attribute(scope.alloc(), ROUTE, route)?;
    scope.edit(SpanEdit::SetAttribute(attribute))?;
    scope.edit(SpanEdit::UpdateName(name))
}

/// The name of a span with a route.
fn route_name(alloc: Global, method: &Method, route: &str) -> Result<String, AllocError>
    ensures { IfOk result (λ name. string_bytes name ≡ method_name method.now ++ space ∷ route.now) }
{
    let mut name = String::from_str(alloc, method_name(method))?;
    name.push_str(" ")?;
    name.push_str(route)?;
    Ok(name)
}

/// Tells the current span of a request to another service what came back. Statuses from 400 on are errors for a client.
pub fn record_response<S: HoldsSpans>(scope: &mut S, status: StatusCode) -> Result<(), AllocError>
    ensures tells { TellsHere S.HoldsSpans (status_edits FIRST_ERROR status ++ attribute_edits FIRST_ERROR status)
        scope.old result scope.new }
    ensures stays { SpanStays (S.current scope.old).span (S.current scope.new).span }
{
    if !scope.current().is_recording() {
        return Ok(());
    }
    tell_reply(scope, status)
}

/// The same where it records.
fn tell_reply<S: HoldsSpans>(scope: &mut S, status: StatusCode) -> Result<(), AllocError>
    ensures { TellsEach S.HoldsSpans (status_edits FIRST_ERROR status ++ attribute_edits FIRST_ERROR status)
        scope.old result scope.new }
{
    if FIRST_ERROR <= status.as_u16() {
        let description = String::new(scope.alloc());
        scope.edit(SpanEdit::SetStatus(Status::Error { description }))?;
    }
    tell_attributes(scope, status, FIRST_ERROR)
}

/// Tells the current span of its response. Statuses from the first error on are named as errors.
pub(crate) fn tell_response<S: HoldsSpans>(
    scope: &mut S,
    status: StatusCode,
    first_error: u16,
) -> Result<(), AllocError>
    ensures tells { TellsHere S.HoldsSpans (attribute_edits first_error status) scope.old result scope.new }
    ensures stays { SpanStays (S.current scope.old).span (S.current scope.new).span }
{
    if !scope.current().is_recording() {
        return Ok(());
    }
    tell_attributes(scope, status, first_error)
}

/// The same where it records.
fn tell_attributes<S: HoldsSpans>(
    scope: &mut S,
    status: StatusCode,
    first_error: u16,
) -> Result<(), AllocError>
    ensures { TellsEach S.HoldsSpans (attribute_edits first_error status) scope.old result scope.new }
{
    let code = status.as_u16();
    let number = KeyValue::new(Key::from_static_str(STATUS), Value::I64(code as i64));
    scope.edit(SpanEdit::SetAttribute(number))?;
    if code < first_error {
        return Ok(());
    }
    let error = text_attribute(scope.alloc(), ERROR_TYPE, status.as_str())?;
    scope.edit(SpanEdit::SetAttribute(error))
}
