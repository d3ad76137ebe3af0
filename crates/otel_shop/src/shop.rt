//! The shop: a service of four routes, each of which is served inside the span of its request.

ghost use Rattle.std.specs.Prelude.{◌≡◌, ◌++◌, [], OnErr, OnOk, decimal};
ghost use Rattle.http_server.specs.Response.{IsBlank, IsResponse};
ghost use Rattle.otel_shop.specs.Primes.{prime_count};
ghost use Rattle.otel_shop.specs.Texts.{newline};

use crate::answers::{answer, number_line, refuse_method};
use crate::cart::{answer_cart, ask_price};
use crate::primes::prime_count;
use crate::route::{Route, is_read, route_at};
use bytes::Bytes;
use http::{Request, StatusCode};
use http_server::{Response, Service};
use opentelemetry_sdk::trace::HoldsSpans;
use otel_http::{TracedService, record_route};
use std::alloc::{AllocError, Global};

/// What there is to buy costs this much.
const PRICE: &str = "7.50\n";

/// A shop, which asks a backend for prices: a service that answers `GET /price` as a shop does.
#[derive(Drop)]
pub struct Shop<B> {
    pub backend: B,
    /// Below which bound the slow page counts primes.
    pub bound: u32,
}

impl<B: Service, S: HoldsSpans> TracedService<S> for Shop<B> {
    ghost use Rattle.otel_shop.specs.Serving.{ServesShop};

    ghost serves = { ServesShop S.HoldsSpans B.answers };

    fn serve(
        &mut self,
        request: &Request<Bytes>,
        scope: &mut S,
        response: &mut Response,
    ) -> Result<(), AllocError> {
        let Some(route) = route_at(request.uri().path()) else {
            return answer(response, StatusCode::NOT_FOUND, "no such page\n");
        };
        record_route(scope, request.method(), route.text())?;
        if is_read(request.method()) {
            self.serve_route(route, scope, response)
        } else {
            refuse_method(response)
        }
    }
}

impl<B: Service> Shop<B> {
    ghost use Rattle.otel_shop.specs.Serving.{AnswersCart, AnswersRoute, TriesCart, TriesRoute};

    /// Answers a request that reads a route.
    fn serve_route<S: HoldsSpans>(
        &mut self,
        route: Route,
        scope: &mut S,
        response: &mut Response,
    ) -> Result<(), AllocError>
        requires { IsBlank response.old }
        ensures ok { OnOk result
            (AnswersRoute S.HoldsSpans B.answers route self.old scope.old response.new scope.new self.new) }
        ensures err { OnErr result (TriesRoute S.HoldsSpans B.answers route self.old scope.old scope.new self.new) }
        ensures restores { S.current scope.new ≡ S.current scope.old }
    {
        match route {
            Route::Cart => self.serve_cart(scope, response),
            Route::Price => answer(response, StatusCode::OK, PRICE),
            Route::Broken => answer(
                response,
                StatusCode::INTERNAL_SERVER_ERROR,
                "out of order\n",
            ),
            Route::Slow => self.serve_slow(scope.alloc(), response),
        }
    }

    /// Says what is in the cart, and its price by the backend.
    fn serve_cart<S: HoldsSpans>(
        &mut self,
        scope: &mut S,
        response: &mut Response,
    ) -> Result<(), AllocError>
        requires { IsBlank response.old }
        ensures ok { OnOk result
            (AnswersCart S.HoldsSpans B.answers self.old scope.old response.new scope.new self.new) }
        ensures err { OnErr result (TriesCart S.HoldsSpans B.answers self.old scope.old scope.new self.new) }
        ensures restores { S.current scope.new ≡ S.current scope.old }
    {
        let mut reply = ask_price(scope, &mut self.backend)?;
        answer_cart(response, &mut reply)
    }

    /// Counts primes.
    fn serve_slow(&self, alloc: Global, response: &mut Response) -> Result<(), AllocError>
        requires { IsBlank response.old }
        ensures { OnOk result (IsResponse 200 [] (decimal (prime_count self.now.bound) ++ newline) response.new) }
    {
        let line = number_line(alloc, prime_count(self.bound))?;
        answer(response, StatusCode::OK, line.as_str())
    }
}
