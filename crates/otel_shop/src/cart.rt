//! What the cart asks: the price, of a backend, inside a span of kind client.

ghost use Rattle.std.specs.Prelude.{◌≡◌, IfOk, Ok, OnErr, OnOk, codes};
ghost use Rattle.http.specs.Request.{IsHeadFor, head_of};
ghost use Rattle.http_server.specs.Response.{IsBlank};
ghost use Rattle.http_uri.specs.Uri.{Spells};
ghost use Rattle.otel_shop.specs.Cart.{AsksPrice, CartFollows, TriesPrice, price_target};

use crate::answers::answer;
use bytes::{BufMut, Bytes};
use http::{Request, StatusCode};
use http_server::{Response, Service};
use opentelemetry_sdk::trace::HoldsSpans;
use otel_http::ask_inside;
use std::alloc::{AllocError, Global};

/// Asks a backend for the price, inside a span of kind client, and answers its response.
pub fn ask_price<S: HoldsSpans, B: Service>(
    scope: &mut S,
    backend: &mut B,
) -> Result<Response, AllocError>
    ensures ok { IfOk result (λ reply. AsksPrice S.HoldsSpans B.answers backend.old scope.old (Ok reply) scope.new
        backend.new) }
    ensures err { OnErr result (TriesPrice S.HoldsSpans B.answers backend.old scope.old scope.new backend.new) }
    ensures restores { S.current scope.new ≡ S.current scope.old }
{
    let asked = price_request(scope.alloc())?;
    ask_inside(scope, backend, asked)
}

/// The request for the price.
fn price_request(alloc: Global) -> Result<Request<Bytes>, AllocError>
    ensures { IfOk result (λ asked. IsHeadFor (codes "GET") (Spells price_target) (head_of asked)) }
{
    match Request::get(alloc, "http://prices/price").body(Bytes::new()) {
        Ok(asked) => Ok(asked),
        // The target reads, so that there was no memory.
        Err(_) => Err(AllocError),
    }
}

/// Answers by what the backend said: its price, and 502 where it says none.
pub fn answer_cart(response: &mut Response, reply: &mut Response) -> Result<(), AllocError>
    requires { IsBlank response.old }
    ensures { OnOk result (CartFollows reply.old response.new) }
{
    if reply.status.as_u16() != 200 {
        return answer(response, StatusCode::BAD_GATEWAY, "no price\n");
    }
    response.body.put_slice(b"tea: ")?;
    response.body.append(&mut reply.body)
}
