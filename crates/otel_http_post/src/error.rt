//! Why a request cannot be made, and why its answer was not read.

use http1::{ReadError, WriteError};
use std::io::ErrorKind;
use thiserror::Error;

/// Why there is no request. Nothing was sent.
#[derive(Clone, Copy, Debug, PartialEq, Eq, Error)]
pub enum PostError {
    /// The endpoint makes no request: its path, its host or a header cannot stand in one.
    #[error("the endpoint makes no request: {0}")]
    Refused(WriteError),
    /// A further header of the endpoint says how long the body is, which the request says itself.
    #[error("the endpoint makes no request: a header states the length of the body")]
    StatesLength,
    /// There was no memory for the request.
    #[error("no memory for the request")]
    OutOfMemory,
}

impl From<WriteError> for PostError {
    ghost use Rattle.std.specs.Prelude.{◌≡◌};
    ghost use Rattle.otel_http_post.specs.Refusal.{refusal_of};

    ghost from_gives = { λ error out. out ≡ refusal_of error };

    fn from(error: WriteError) -> PostError {
        match error {
            WriteError::OutOfMemory => PostError::OutOfMemory,
            _ => PostError::Refused(error),
        }
    }
}

/// Why there is no answer, or why the body of one was left unread. More of it may be in the stream, which is of no use
/// from then on.
#[derive(Clone, Copy, Debug, PartialEq, Eq, Error)]
pub enum AnswerError {
    /// No response to the request begins as what came does, with at most 64 headers and 64 trailers, or it switches
    /// protocols.
    #[error("the answer does not read: {0}")]
    Unreadable(ReadError),
    /// The other side says that it waited no longer for a request (RFC 9110, section 15.5.9). Who has sent one whole
    /// was not heard: this was said of the time before it, or of another.
    #[error("the other side waited no longer for the request")]
    RequestTimeout,
    /// The body has more bytes than the limit.
    #[error("the body of the answer is larger than the limit")]
    TooLarge,
    /// The stream ended before the answer did.
    #[error("the stream ended before the answer did")]
    Ended,
    /// A read of the stream failed.
    #[error("the stream failed: {0:?}")]
    Stream(ErrorKind),
    /// There was no memory for the answer.
    #[error("no memory for the answer")]
    OutOfMemory,
}
