//! Responses of a status, a text and no more.

ghost use Rattle.std.specs.Prelude.{◌≡◌, ◌++◌, ◌∷◌, [], OnOk, codes, decimal, string_bytes, IfOk};
ghost use Rattle.http_server.specs.Response.{IsBlank, IsResponse};
ghost use Rattle.otel_shop.specs.Texts.{allow_field, method_text, newline};

use bytes::BufMut;
use http::StatusCode;
use http_header::{ALLOW, HeaderValue};
use http_server::Response;
use std::alloc::{AllocError, Global};

/// Answers with a status and a text.
pub fn answer(response: &mut Response, status: StatusCode, text: &str) -> Result<(), AllocError>
    requires { IsBlank response.old }
    ensures { OnOk result (IsResponse status [] text.now response.new) }
{
    response.status = status;
    response.body.put_slice(text.as_bytes())
}

/// Answers a request that wants more than to read.
pub fn refuse_method(response: &mut Response) -> Result<(), AllocError>
    requires { IsBlank response.old }
    ensures { OnOk result (IsResponse 405 (allow_field ∷ []) method_text response.new) }
{
    response.add_header(ALLOW, HeaderValue::from_static("GET, HEAD"))?;
    response.status = StatusCode::METHOD_NOT_ALLOWED;
    response.body.put_slice(b"only to be read\n")
}

/// A number as a line.
pub fn number_line(alloc: Global, number: u32) -> Result<String, AllocError>
    ensures { IfOk result (λ line. string_bytes line ≡ decimal number ++ newline) }
{
    format!(in alloc; "{number}\n")
}
