//! What an answer says of the batch that was sent.

ghost use Rattle.std.specs.Prelude.{◌≡◌};
ghost use Rattle.std.specs.Result.{result_map_both};
ghost use Rattle.otel_otlp_http.specs.Verdicts.{Judges, by_rejected, is_retryable, is_success, unless_success};

use crate::failure::ExportFailure;
use crate::success::rejected_spans;
use otel_http_post::Answer;
use otel_otlp_protobuf::Encoding;
use std::alloc::Global;

/// Whether a status is of success.
fn is_success(status: u16) -> bool
    ensures { result ≡ is_success status }
{
    status / 100 == 2
}

/// Whether a status asks to try again later (OTLP 1.7, "Retryable Response Codes").
fn is_retryable(status: u16) -> bool
    ensures { result ≡ is_retryable status }
{
    status == 429 || status == 502 || status == 503 || status == 504
}

/// What an answer that is no success says.
fn without_success(status: u16, retry_after: Option<u64>) -> ExportFailure
    ensures { result ≡ unless_success status retry_after }
{
    if is_retryable(status) {
        ExportFailure::Retryable {
            status,
            retry_after,
        }
    } else {
        ExportFailure::Refused { status }
    }
}

/// What a success says whose body says that so many spans were rejected, or does not read.
fn by_rejected(status: u16, count: Option<u64>) -> Option<ExportFailure>
    ensures { result ≡ by_rejected status count }
{
    match count {
        Some(0) => None,
        Some(spans) if spans < 1 << 63 => Some(ExportFailure::PartlyRejected { spans }),
        _ => Some(ExportFailure::UnreadableSuccess { status }),
    }
}

/// What an answer says: nothing where the batch was taken whole.
pub(crate) fn judge(alloc: Global, encoding: Encoding, answer: &Answer) -> Option<ExportFailure>
    ensures { Judges encoding answer.now.status answer.now.retry_after
        (result_map_both (λ body. body.items) (λ error. error) answer.now.body) result }
{
    let status = answer.status;
    if !is_success(status) {
        return Some(without_success(status, answer.retry_after));
    }
    let Ok(body) = &answer.body else {
        return Some(ExportFailure::UnreadSuccess { status });
    };
    match rejected_spans(alloc, encoding, body) {
        Ok(count) => by_rejected(status, count),
        Err(_) => Some(ExportFailure::UnreadSuccess { status }),
    }
}
