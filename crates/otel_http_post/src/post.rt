//! The text of a request with its body, and the client that reads its answer.

ghost use Rattle.std.specs.Prelude.{◌≡◌, ◌++◌, ◌∷◌, ◌↔◌, [], IfErr, IfOk, IsFalse, codes, length};
ghost use Rattle.http1.specs.Conn.{length_header};
ghost use Rattle.http1.specs.Fields.{known_fields};
ghost use Rattle.http1.specs.Head.{pairs, request_text};
ghost use Rattle.otel_http_post.specs.Refusal.{RefusesHeaders, RefusesPost};
ghost use Rattle.otel_http_post.specs.Request.{LeavesLength, asked_client, post_headers, post_text};

use crate::endpoint::Endpoint;
use crate::error::PostError;
use http1::fields::{ContentLength, KnownFields, TransferEncoding};
use http1::{BodySize, Client, Header, Limits};
use std::alloc::{AllocError, Global};

/// How much of a head, of the extensions of chunks and of trailers is read.
const LIMITS: Limits = Limits {
    max_head_len: 16384,
    max_extensions_len: 16384,
    max_trailers_len: 16384,
};

/// A request: send its text whole, and read its answer with it.
#[derive(Debug, Drop)]
pub struct Post {
    /// The head and the body.
    pub text: Vec<u8>,
    /// What reads the answer.
    pub client: Client,
}

/// The headers of a request, but for the length of its body.
fn header_list<'a>(
    alloc: Global,
    endpoint: &'a Endpoint,
    content_type: &'a [u8],
) -> Result<Vec<Header<'a>>, AllocError>
    ensures { IfOk result (λ list. pairs list.items ≡ post_headers endpoint.now content_type.now) }
{
    let mut list = Vec::new(alloc);
    list.push(Header {
        name: b"host",
        value: endpoint.host.as_bytes(),
    })?;
    list.push(Header {
        name: b"content-type",
        value: content_type,
    })?;
    for pair in &endpoint.headers {
        list.push(Header {
            name: pair.0.as_bytes(),
            value: pair.1.as_bytes(),
        })?;
    }
    Ok(list)
}

/// Whether a header says how long the body is.
fn states_length(headers: &[Header<'_>]) -> bool
    ensures { IsFalse result ↔ LeavesLength (known_fields (pairs headers.now)) }
{
    let known = KnownFields::from_headers(headers);
    known.framing_fields != 0
        || !matches!(known.content_length, ContentLength::Absent)
        || !matches!(known.transfer_encoding, TransferEncoding::Absent)
}

/// Makes the request that posts this body.
pub fn make_post(
    alloc: Global,
    endpoint: &Endpoint,
    content_type: &[u8],
    body: &[u8],
) -> Result<Post, PostError>
    ensures text { IfOk result (λ post. post.text.items ≡ post_text endpoint.now content_type.now body.now) }
    ensures client { IfOk result (λ post.
        post.client ≡ asked_client (post_headers endpoint.now content_type.now) (length body.now)) }
    ensures err { IfErr result (RefusesPost endpoint.now content_type.now (length body.now)) }
{
    let Ok(headers) = header_list(alloc, endpoint, content_type) else {
        return Err(PostError::OutOfMemory);
    };
    if states_length(&headers) {
        return Err(PostError::StatesLength);
    }
    write_post(alloc, endpoint.path.as_bytes(), &headers, body)
}

/// Writes the head, the body and the end of a request.
fn write_post(
    alloc: Global,
    path: &[u8],
    headers: &[Header<'_>],
    body: &[u8],
) -> Result<Post, PostError>
    ensures text { LeavesLength (known_fields (pairs headers.now)) → IfOk result (λ post. post.text.items
        ≡ request_text (codes "POST") path.now 1 (pairs headers.now ++ length_header (length body.now) ∷ [])
        ++ body.now) }
    ensures client { IfOk result (λ post. post.client ≡ asked_client (pairs headers.now) (length body.now)) }
    ensures err { LeavesLength (known_fields (pairs headers.now))
        → IfErr result (RefusesHeaders path.now (pairs headers.now) (length body.now)) }
{
    let mut client = Client::new(LIMITS);
    let mut text = Vec::new(alloc);
    let size = BodySize::Known(body.len() as u64);
    client.write_request(&mut text, b"POST", path, headers, size)?;
    client.write_data(&mut text, body)?;
    client.write_end(&mut text, &[])?;
    Ok(Post { text, client })
}
