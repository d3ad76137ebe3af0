//! Why the spans of a batch were not taken, and what becomes of the batch.

ghost use Rattle.std.specs.Prelude.{◌≡◌, ◌++◌, IfOk, OnOk, string_bytes};
ghost use Rattle.otel_otlp_http.specs.Failures.{EndsWithReason, IsFailureOf, is_kept_after, reason_text};

use otel_export::error::OTelSdkError;
use otel_http_post::{AnswerError, PostError};
use std::alloc::{AllocError, Global};
use std::io::ErrorKind;
use thiserror::Error;

/// Why the last export failed. After some the exporter keeps the batch, for `take_unsent`; after others the other side
/// has had it, or it is lost.
#[derive(Clone, Copy, Debug, PartialEq, Eq, Error)]
pub enum ExportFailure {
    /// The other side asks to try again later. The batch is kept.
    #[error("the spans were not taken for now: status {status}")]
    Retryable {
        /// 429, 502, 503 or 504.
        status: u16,
        /// After how many seconds, where the answer says so.
        retry_after: Option<u64>,
    },
    /// The other side does not take the batch, now or later.
    #[error("the spans were refused: status {status}")]
    Refused {
        /// Neither a success nor one that asks to try again.
        status: u16,
    },
    /// The other side has taken the batch but for some of its spans.
    #[error("{spans} spans were rejected")]
    PartlyRejected {
        /// How many spans it did not take.
        spans: u64,
    },
    /// The answer is a success, but its body is no response of the protocol, or counts a negative number of spans.
    /// Whether spans were rejected is not known.
    #[error("the answer of status {status} has a body that does not read")]
    UnreadableSuccess {
        /// From 200 to 299.
        status: u16,
    },
    /// The answer is a success whose body was not read: it is too long, was cut or does not read by its framing, the
    /// stream failed, or there was no memory. Whether spans were rejected is not known.
    #[error("the answer of status {status} has a body that was not read")]
    UnreadSuccess {
        /// From 200 to 299.
        status: u16,
    },
    /// No head of an answer was read to the request. The batch is kept, and the exporter is closed.
    #[error(transparent)]
    Unanswered(AnswerError),
    /// The request could not be sent whole. The batch is kept, and the exporter is closed.
    #[error("the request cannot be sent: {0:?}")]
    Unwritten(ErrorKind),
    /// The exporter is closed, and nothing was sent. The batch is kept.
    #[error("the exporter has no open stream")]
    Closed,
    /// There is no request of the batch, and nothing was sent. The batch is kept.
    #[error(transparent)]
    Unmade(PostError),
    /// There was no memory for the resource, and nothing was sent. The batch is kept.
    #[error("no memory for the resource")]
    NoResource,
    /// There was no memory to keep the batch, and nothing was sent. The batch is lost.
    #[error("no memory to keep the spans, which are lost")]
    Lost,
}

impl ExportFailure {
    /// Whether the exporter keeps the batch: it can be sent again.
    pub fn keeps_batch(self) -> bool
        ensures { result ≡ is_kept_after self }
    {
        match self {
            ExportFailure::Retryable { .. }
            | ExportFailure::Unanswered(_)
            | ExportFailure::Unwritten(_)
            | ExportFailure::Closed
            | ExportFailure::Unmade(_)
            | ExportFailure::NoResource => true,
            ExportFailure::Refused { .. }
            | ExportFailure::PartlyRejected { .. }
            | ExportFailure::UnreadableSuccess { .. }
            | ExportFailure::UnreadSuccess { .. }
            | ExportFailure::Lost => false,
        }
    }

    /// What an export answers: the failure's text, and after it what the other side said of it.
    pub(crate) fn into_error(self, alloc: Global, reason: &str) -> OTelSdkError
        ensures { IsFailureOf self reason.now result }
    {
        if let ExportFailure::Lost = self {
            return OTelSdkError::OutOfMemory;
        }
        match self.text(alloc, reason) {
            Ok(text) => OTelSdkError::InternalFailure(text),
            Err(_) => OTelSdkError::InternalFailure(String::new(alloc)),
        }
    }

    fn text(self, alloc: Global, reason: &str) -> Result<String, AllocError>
        ensures { IfOk result (λ text. EndsWithReason reason.now (string_bytes text)) }
    {
        let mut text = format!(in alloc; "{self}")?;
        push_reason(&mut text, reason)?;
        Ok(text)
    }
}

/// Appends what the other side said, where it said something.
fn push_reason(text: &mut String, reason: &str) -> Result<(), AllocError>
    ensures { OnOk result (string_bytes text.new ≡ string_bytes text.old ++ reason_text reason.now) }
{
    if !reason.is_empty() {
        text.push_str(": ")?;
        text.push_str(reason)?;
    }
    Ok(())
}
