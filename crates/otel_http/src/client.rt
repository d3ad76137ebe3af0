//! A request to another service: its span, and the headers by which the other service takes part in the trace.

ghost use Rattle.std.specs.Prelude.{◌≡◌, IfOk, IfSome, OnErr, OnOk};
ghost use Rattle.http.specs.Request.{head_of, with_head};
ghost use Rattle.otel_http.specs.Asking.{Asks, Sends, is_failed};
ghost use Rattle.otel_http.specs.ContextFields.{SetsFields, SetsUpTo, context_fields, other_fields};
ghost use Rattle.otel_http.specs.Contexts.{InjectsContext};
ghost use Rattle.otel_http.specs.Headers.{header_texts};
ghost use Rattle.otel_http.specs.Injection.{carrier_answer};
ghost use Rattle.otel_http.specs.RequestSpans.{IsClientBuilder};
ghost use Rattle.otel_http.specs.Telling.{SpanStays};

use crate::SetHeaderError;
use crate::conventions::{client_attributes, method_name};
use crate::propagation::{inject_context, inject_here};
use crate::telling::tell_response;
use bytes::Bytes;
use http::Request;
use http_server::{Response, Service};
use opentelemetry::Context;
use opentelemetry::trace::{SpanBuilder, SpanKind};
use otel_scope::HoldsSpans;
use std::alloc::{AllocError, Global};

/// The status from which on a request failed for its client.
pub(crate) const FIRST_ERROR: u16 = 400;

/// Writes a context into the headers of a request, so that the service that gets it takes part in the trace. On an error
/// a beginning of its headers is set; all else of the request stays as it is, whether it succeeds or not.
pub fn inject_request<B>(
    alloc: Global,
    request: &mut Request<B>,
    cx: &Context,
) -> Result<(), SetHeaderError>
    ensures injects { InjectsContext cx.now (head_of request.old).headers (carrier_answer result)
        (head_of request.new).headers }
    ensures ok { OnOk result
        (SetsFields (head_of request.old).headers (context_fields cx.now) (head_of request.new).headers) }
    ensures err { OnErr result
        (SetsUpTo (head_of request.old).headers (context_fields cx.now) (head_of request.new).headers) }
    ensures others { other_fields (head_of request.new).headers ≡ other_fields (head_of request.old).headers }
    ensures rest { request.new ≡ with_head request.old
        (record (head_of request.old) { headers = (head_of request.new).headers }) }
{
    inject_context(alloc, cx, request.headers_mut())
}

/// What the span of a request to another service begins with: the kind client, the method as its name, and what the
/// conventions say of a request. `Scope::in_span` takes it.
pub fn client_span<B>(alloc: Global, request: &Request<B>) -> Result<SpanBuilder, AllocError>
    ensures { IfOk result (IsClientBuilder (head_of request.now)) }
{
    let attributes = client_attributes(alloc, request)?;
    let name = String::from_str(alloc, method_name(request.method()))?;
    Ok(
        SpanBuilder::from_name(name)
            .with_kind(SpanKind::Client)
            .with_attributes(attributes),
    )
}

/// Sends a request to another service inside a span of kind client: it goes with the context of that span, and the span
/// is told what came back. It ends whatever comes, and what was current is so again. Where there is no memory for the span
/// it counts as lost, and the request is sent all the same.
pub fn ask_inside<S: HoldsSpans, B: Service>(
    scope: &mut S,
    service: &mut B,
    mut request: Request<Bytes>,
) -> Result<Response, AllocError>
    ensures asks { Asks S.HoldsSpans B.answers service.old request scope.old result scope.new service.new }
    ensures restores { S.current scope.new ≡ S.current scope.old }
{
    let asked = client_builder(scope.alloc(), &request);
    let outer = scope.enter(asked);
    let answered = send(scope, service, &mut request);
    scope.leave(outer, is_failed(&answered));
    answered
}

/// What the span of such a request begins with; none where there is no memory for it.
fn client_builder(alloc: Global, request: &Request<Bytes>) -> Option<SpanBuilder>
    ensures { IfSome result (IsClientBuilder (head_of request.now)) }
{
    match client_span(alloc, request) {
        Ok(builder) => Some(builder),
        Err(_) => None,
    }
}

/// Whether a request failed for its client.
fn is_failed(answered: &Result<Response, AllocError>) -> bool
    ensures { result ≡ is_failed answered.now }
{
    match answered {
        Ok(reply) => FIRST_ERROR <= reply.status.as_u16(),
        Err(_) => true,
    }
}

/// Sends a request with what of the current context travels, and tells the current span what came back.
fn send<S: HoldsSpans, B: Service>(
    scope: &mut S,
    service: &mut B,
    request: &mut Request<Bytes>,
) -> Result<Response, AllocError>
    ensures sends { IfOk result (λ reply. Sends S.HoldsSpans B.answers service.old request.old scope.old reply scope.new
        service.new) }
    ensures stays { SpanStays (S.current scope.old).span (S.current scope.new).span }
{
    carry(scope, request)?;
    let mut reply = Response::new(scope.alloc());
    service.call(request, &mut reply)?;
    tell_response(scope, reply.status, FIRST_ERROR)?;
    Ok(reply)
}

/// Writes what of the current context travels into the headers of a request; all else of it stays as it is.
fn carry<S: HoldsSpans>(scope: &S, request: &mut Request<Bytes>) -> Result<(), AllocError>
    ensures injects { S.injects scope.now (S.current scope.now).cx (header_texts (head_of request.old).headers) result
        (header_texts (head_of request.new).headers) }
    ensures rest { request.new ≡ with_head request.old
        (record (head_of request.old) { headers = (head_of request.new).headers }) }
{
    inject_here(scope, request.headers_mut())
}
