//! The backend of a shop that asks nobody.

use crate::answers::answer;
use bytes::Bytes;
use http::{Request, StatusCode};
use http_server::{Response, Service};
use std::alloc::AllocError;

/// Answers each request by 503.
#[derive(Drop)]
pub struct NoBackend;

impl Service for NoBackend {
    ghost use Rattle.std.specs.Prelude.{◌≡◌, []};
    ghost use Rattle.http_server.specs.Response.{IsResponse};
    ghost use Rattle.otel_shop.specs.Texts.{nobody_text};

    ghost answers = { λ old _ response new. IsResponse 503 [] nobody_text response × (new ≡ old) };

    fn call(
        &mut self,
        _request: &Request<Bytes>,
        response: &mut Response,
    ) -> Result<(), AllocError> {
        answer(response, StatusCode::SERVICE_UNAVAILABLE, "nobody to ask\n")
    }
}
