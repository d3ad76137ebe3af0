//! One try to send a batch: its request, and then the answer to it.

ghost use Rattle.std.specs.Prelude.{◌≡◌, [], Some};
ghost use Rattle.otel_http_post.specs.Request.{HasAsked};
ghost use Rattle.otel_otlp_http.specs.Attempts.{Attempts, Exchanges, asking, over};

use crate::failure::ExportFailure;
use crate::message::reason_for;
use crate::reason::Reason;
use crate::request::make_request;
use crate::verdict::judge;
use otel_export::stream::write_whole;
use otel_export::trace::SpanData;
use otel_http_post::{Endpoint, Post, read_answer};
use otel_otlp_protobuf::Encoding;
use otel_resource::resource::Resource;
use std::alloc::Global;
use std::io::{Read, Write};

/// How many bytes of the body of an answer are read, at most.
pub(crate) const MAX_ANSWER: usize = 65536;

/// What came of a try: why it failed, and what the other side said of that.
pub(crate) struct Tried {
    pub failure: Option<ExportFailure>,
    pub reason: Reason,
}

/// It failed before the other side has said anything.
fn unheard(failure: ExportFailure) -> Tried
    ensures failure { result.failure ≡ Some failure }
    ensures silent { result.reason.bytes ≡ [] }
{
    Tried {
        failure: Some(failure),
        reason: Reason::new(),
    }
}

/// Sends a request whole, reads its answer, and says what that says of the batch.
fn exchange<S: Read + Write>(
    alloc: Global,
    encoding: Encoding,
    post: Post,
    stream: &mut S,
    is_open: &mut bool,
) -> Tried
    ensures { HasAsked post.client → Exchanges S.contents S.remaining
        (record { encoding = encoding; client = post.client; text = post.text.items }) stream.old result.failure
        result.reason.bytes (over stream.new is_open.new) }
{
    *is_open = false;
    if let Err(error) = write_whole(stream, &post.text) {
        return unheard(ExportFailure::Unwritten(error.kind()));
    }
    match read_answer(alloc, stream, post, MAX_ANSWER) {
        Ok(answer) => {
            *is_open = answer.keeps;
            let failure = judge(alloc, encoding, &answer);
            let reason = reason_for(alloc, encoding, &answer, failure);
            Tried { failure, reason }
        }
        Err(error) => unheard(ExportFailure::Unanswered(error)),
    }
}

/// Tries to send a batch, where the stream is open. It says why it failed, and what the other side said of that.
pub(crate) fn attempt<S: Read + Write>(
    alloc: Global,
    endpoint: &Endpoint,
    encoding: Encoding,
    resource: &Option<Resource>,
    batch: &[SpanData],
    stream: &mut S,
    is_open: &mut bool,
) -> Tried
    ensures { Attempts S.contents S.remaining (asking endpoint.now encoding resource.now batch.now)
        (over stream.old is_open.old) result.failure result.reason.bytes (over stream.new is_open.new) }
{
    if !*is_open {
        return unheard(ExportFailure::Closed);
    }
    let Some(resource) = resource else {
        return unheard(ExportFailure::NoResource);
    };
    match make_request(alloc, endpoint, encoding, resource, batch) {
        Ok(post) => exchange(alloc, encoding, post, stream, is_open),
        Err(error) => unheard(ExportFailure::Unmade(error)),
    }
}
