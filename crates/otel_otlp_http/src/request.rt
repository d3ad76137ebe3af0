//! The request of a batch.

ghost use Rattle.std.specs.Prelude.{◌≡◌, IfErr, IfOk, OnOk};
ghost use Rattle.otel_otlp_http.specs.Requests.{Unmakes, batch_client, batch_request, body_bytes};

use otel_export::trace::SpanData;
use otel_http_post::{Endpoint, Post, PostError, make_post};
use otel_otlp::write_request;
use otel_otlp_protobuf::{Encoding, write_request_protobuf};
use otel_resource::resource::Resource;
use std::alloc::{AllocError, Global};

/// The body of a batch in JSON, without the end of its line.
fn json_body(
    alloc: Global,
    body: &mut Vec<u8>,
    resource: &Resource,
    batch: &[SpanData],
) -> Result<(), AllocError>
    ensures { OnOk result (body.new.items ≡ body_bytes Encoding.Json resource.now batch.now) }
{
    body.clear();
    write_request(alloc, body, resource, batch)?;
    let _line_feed = body.pop();
    Ok(())
}

/// The body of a batch.
fn make_body(
    alloc: Global,
    encoding: Encoding,
    resource: &Resource,
    batch: &[SpanData],
) -> Result<Vec<u8>, AllocError>
    ensures { IfOk result (λ body. body.items ≡ body_bytes encoding resource.now batch.now) }
{
    let mut body = Vec::new(alloc);
    match encoding {
        Encoding::Protobuf => write_request_protobuf(alloc, &mut body, resource, batch)?,
        Encoding::Json => json_body(alloc, &mut body, resource, batch)?,
    }
    Ok(body)
}

/// The request of a batch. On an error nothing of it is there.
pub(crate) fn make_request(
    alloc: Global,
    endpoint: &Endpoint,
    encoding: Encoding,
    resource: &Resource,
    batch: &[SpanData],
) -> Result<Post, PostError>
    ensures text { IfOk result (λ post.
        post.text.items ≡ batch_request endpoint.now encoding resource.now batch.now) }
    ensures client { IfOk result (λ post.
        post.client ≡ batch_client endpoint.now encoding resource.now batch.now) }
    ensures err { IfErr result (Unmakes endpoint.now encoding resource.now batch.now) }
{
    let Ok(body) = make_body(alloc, encoding, resource, batch) else {
        return Err(PostError::OutOfMemory);
    };
    make_post(alloc, endpoint, encoding.content_type(), &body)
}
