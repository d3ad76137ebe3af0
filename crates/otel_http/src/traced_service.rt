//! A service that is served inside a span.

ghost use Rattle.otel_http.specs.Serving.{Serving};
ghost use Rattle.otel_http.specs.Telling.{SpanStays};
ghost use Rattle.http_server.specs.Response.{IsBlank};

use bytes::Bytes;
use http::Request;
use http_server::Response;
use otel_scope::HoldsSpans;
use std::alloc::AllocError;

/// Turns a request into a response, inside the span of the request: as `http_server::Service`, with the scope in which
/// that span is current. A service is generic in its scope where it can be.
pub trait TracedService<S: HoldsSpans> {
    /// What a call does: the service, the request, the scope, the answer, the response, the scope that is left, and the
    /// service after.
    ghost serves: { Serving Self S };

    /// Fills `response`, which comes as a 200 with no header and no body. In the scope the span is current: it may be
    /// edited, and what is asked of other services gets its context. Whoever calls ends it, so that what is current at the
    /// return is what was, but for edits and baggage.
    ///
    /// The error is for memory alone, and becomes a 500. Answer any other fault with a status.
    fn serve(
        &mut self,
        request: &Request<Bytes>,
        scope: &mut S,
        response: &mut Response,
    ) -> Result<(), AllocError>
        requires { IsBlank response.old }
        ensures serves { serves self.old request.now scope.old result response.new scope.new self.new }
        ensures stays { SpanStays (S.current scope.old).span (S.current scope.new).span };
}
