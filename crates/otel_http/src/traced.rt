//! A service around a traced one: it serves each request inside a span of its own.

ghost use Rattle.std.specs.Prelude.{◌≡◌, false, true, IfOk, IfSome, IsOk, OnErr, OnOk};
ghost use Rattle.http.specs.Request.{head_of};
ghost use Rattle.http_server.specs.Response.{IsBlank};
ghost use Rattle.otel_http.specs.RequestSpans.{IsServerBuilder};
ghost use Rattle.otel_http.specs.Serving.{ServesIn, ServesInside, ServesOnce, TracesRequest};
ghost use Rattle.otel_http.specs.Serving.{counted_unless, new_traced, url_scheme};

use crate::TracedService;
use crate::conventions::{method_name, server_attributes};
use crate::propagation::extract_here;
use crate::telling::tell_response;
use bytes::Bytes;
use http::{Request, StatusCode};
use http_server::{Response, Service};
use opentelemetry::Context;
use opentelemetry::trace::{SpanBuilder, SpanKind};
use otel_scope::HoldsSpans;
use std::alloc::{AllocError, Global};
use std::marker::Model;

/// The status from which on a server failed.
const FIRST_FAILURE: u16 = 500;

/// Serves each request inside a span of kind server.
pub struct Traced<V, S> {
    service: V,
    scope: S,
    is_https: bool,
    keeps_query: bool,
    untraced: u64,
    unfinished: u64,
}

impl<V, S> Model for Traced<V, S> {
    ghost use Rattle.otel_http.specs.Serving.{TracedState};

    ghost Value = { TracedState V S };

    ghost view = { λ traced. record {
      service = traced.service;
      scope = traced.scope;
      is_https = traced.is_https;
      keeps_query = traced.keeps_query;
      untraced = traced.untraced;
      unfinished = traced.unfinished;
    } };
}

impl<V, S> Traced<V, S> {
    ghost use Rattle.std.specs.Borrow.{Lends, sem};
    ghost use Rattle.otel_http.specs.contracts.traced.Traced.{the_row};

    /// A service whose requests start spans in this scope. They are requests of `http`.
    pub fn new(service: V, scope: S) -> Traced<V, S>
        ensures { result ≡ new_traced service scope }
    {
        Traced {
            service,
            scope,
            is_https: false,
            keeps_query: false,
            untraced: 0,
            unfinished: 0,
        }
    }

    /// The same for requests of `https`. One whose target names its scheme is of that one.
    pub fn with_https(mut self) -> Traced<V, S>
        ensures { result ≡ record self { is_https = true } }
    {
        self.is_https = true;
        self
    }

    /// The same with queries as attributes, which may have secrets in them.
    pub fn with_url_query(mut self) -> Traced<V, S>
        ensures { result ≡ record self { keeps_query = true } }
    {
        self.keeps_query = true;
        self
    }

    /// The service, and the scope, which is to be closed.
    pub fn into_parts(self) -> (V, S)
        ensures { result ≡ (self.service, self.scope) }
    {
        let Traced {
            service,
            scope,
            is_https: _,
            keeps_query: _,
            untraced: _,
            unfinished: _,
        } = self;
        (service, scope)
    }

    /// The scope, to be looked at.
    pub fn scope(&self) -> &S
        ensures { result.now ≡ self.now.scope }
    {
        &self.scope
    }

    /// The scope, to be flushed or told the time between requests.
    pub fn scope_mut(&mut self) -> &mut S
        ensures* writes_back { sem 𝓛 (Lends (the_row V.row S.row) S.row self.entry result
            (λ scope. record self.old { scope = scope })) }
        ensures value { result.now ≡ self.old.scope }
    {
        &mut self.scope
    }

    /// How many requests were served without a span, since there was no memory for one.
    pub fn untraced(&self) -> u64
        ensures { result ≡ self.now.untraced }
    {
        self.untraced
    }

    /// How many spans lack what they are told of their response, since there was no memory.
    pub fn unfinished(&self) -> u64
        ensures { result ≡ self.now.unfinished }
    {
        self.unfinished
    }
}

impl<V: TracedService<S>, S: HoldsSpans> Service for Traced<V, S> {
    ghost use Rattle.otel_http.specs.Serving.{TracesRequest};

    ghost answers = { TracesRequest S.HoldsSpans V.serves };

    /// Always `Ok`: tracing never stands in the way. What was current in the scope is so again.
    fn call(&mut self, request: &Request<Bytes>, response: &mut Response) -> Result<(), AllocError>
        requires { IsBlank response.old }
        ensures ok { OnOk result
            (TracesRequest S.HoldsSpans V.serves self.old request.now response.new self.new) }
        ensures err { OnErr result (self.new ≡ self.old) }
        ensures always { IsOk result }
        ensures restores { S.current self.new.scope ≡ S.current self.old.scope }
    {
        match extract_here(&self.scope, request.headers()) {
            Ok(cx) => self.serve_in(request, cx, response),
            Err(_) => self.serve_inside(request, None, response),
        }
        Ok(())
    }
}

impl<V: TracedService<S>, S: HoldsSpans> Traced<V, S> {
    /// Serves a request in a context.
    fn serve_in(&mut self, request: &Request<Bytes>, cx: Context, response: &mut Response)
        requires { IsBlank response.old }
        ensures { ServesIn S.HoldsSpans V.serves cx self.old request.now response.new self.new }
    {
        let asked = server_builder(self.scope.alloc(), request, self.is_https, self.keeps_query);
        let outside = self.scope.replace_context(cx);
        self.serve_inside(request, asked, response);
        let _inside = self.scope.replace_context(outside);
    }

    /// Serves a request inside a span that begins so, where there is memory for it.
    fn serve_inside(
        &mut self,
        request: &Request<Bytes>,
        asked: Option<SpanBuilder>,
        response: &mut Response,
    )
        requires { IsBlank response.old }
        ensures { ServesInside S.HoldsSpans V.serves asked self.old request.now response.new self.new }
    {
        let outer = self.scope.enter(asked);
        self.untraced = counted_unless(self.untraced, self.scope.current().span.is_some());
        ask(&mut self.service, request, &mut self.scope, response);
        let told = tell_response(&mut self.scope, response.status, FIRST_FAILURE);
        self.unfinished = counted_unless(self.unfinished, told.is_ok());
        self.scope
            .leave(outer, FIRST_FAILURE <= response.status.as_u16());
    }
}

/// The scheme of requests whose target names none.
fn url_scheme(is_https: bool) -> &'static str
    ensures { result.now ≡ url_scheme is_https }
{
    if is_https { "https" } else { "http" }
}

/// A count, and one more unless that holds.
fn counted_unless(count: u64, holds: bool) -> u64
    ensures { result ≡ counted_unless holds count }
{
    if holds {
        count
    } else {
        count.saturating_add(1)
    }
}

/// What a request's span begins with; none where there is no memory for it.
fn server_builder(
    alloc: Global,
    request: &Request<Bytes>,
    is_https: bool,
    keeps_query: bool,
) -> Option<SpanBuilder>
    ensures { IfSome result (IsServerBuilder (url_scheme is_https) keeps_query (head_of request.now)) }
{
    match server_span(alloc, request, url_scheme(is_https), keeps_query) {
        Ok(builder) => Some(builder),
        Err(_) => None,
    }
}

/// What a request's span begins with.
fn server_span(
    alloc: Global,
    request: &Request<Bytes>,
    scheme: &str,
    keeps_query: bool,
) -> Result<SpanBuilder, AllocError>
    ensures { IfOk result (IsServerBuilder scheme.now keeps_query (head_of request.now)) }
{
    let attributes = server_attributes(alloc, request, scheme, keeps_query)?;
    let name = String::from_str(alloc, method_name(request.method()))?;
    Ok(
        SpanBuilder::from_name(name)
            .with_kind(SpanKind::Server)
            .with_attributes(attributes),
    )
}

/// Asks the service.
fn ask<V: TracedService<S>, S: HoldsSpans>(
    service: &mut V,
    request: &Request<Bytes>,
    scope: &mut S,
    response: &mut Response,
)
    requires { IsBlank response.old }
    ensures { ServesOnce S.HoldsSpans V.serves service.old request.now scope.old response.new scope.new service.new }
{
    if let Err(_) = service.serve(request, scope, response) {
        response.clear();
        response.status = StatusCode::INTERNAL_SERVER_ERROR;
    }
}
