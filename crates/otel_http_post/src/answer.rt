//! An answer: its status, after how many seconds to try again, and its body.

ghost use Rattle.std.specs.Prelude.{◌≡◌, ◌++◌, ℕ, List, Err, MatchResult};
ghost use Rattle.std.specs.Result.{result_map_both};
ghost use Rattle.std.specs.Io.KnownBytes.{Consumes, IsAtEnd};
ghost use Rattle.otel_http_post.specs.Answer.{AnswersBy, HasNoAnswer, unanswered_by};
ghost use Rattle.otel_http_post.specs.Request.{HasAsked};

use crate::body::read_body;
use crate::error::AnswerError;
use crate::head::read_head;
use crate::inbox::Inbox;
use crate::post::Post;
use bytes::BytesMut;
use http1::ReadError;
use std::alloc::Global;
use std::io::Read;

/// What the other side answered. Its head decides: it stands, whatever becomes of the body.
#[derive(Debug, Drop)]
pub struct Answer {
    /// The status code.
    pub status: u16,
    /// After how many seconds to try again, where the answer says so in digits.
    pub retry_after: Option<u64>,
    /// The body, or why it was left unread.
    pub body: Result<Vec<u8>, AnswerError>,
    /// Whether another request can be sent: both sides keep the connection, the body was read and did not run until
    /// the stream ended, and nothing came after it.
    pub keeps: bool,
}

/// Why a status is that of no answer to a request that was sent whole.
fn no_answer_by(status: u16) -> Option<AnswerError>
    ensures { result ≡ unanswered_by status }
{
    match status {
        101 => Some(AnswerError::Unreadable(ReadError::UnexpectedResponse)),
        408 => Some(AnswerError::RequestTimeout),
        _ => None,
    }
}

/// Reads the answer to a request that was sent whole. A body of more than `limit` bytes is left unread, and so is one
/// for which there is no memory, or that is cut.
pub fn read_answer<R: Read>(
    alloc: Global,
    reader: &mut R,
    post: Post,
    limit: usize,
) -> Result<Answer, AnswerError>
    ensures read { (received : List ℕ) × Consumes (R.remaining reader.old) (R.remaining reader.new) received
        × (HasAsked post.client → MatchResult result
        (λ answer. AnswersBy post.client received (R.remaining reader.new) limit answer.status answer.retry_after
        (result_map_both (λ body. body.items) (λ error. error) answer.body) answer.keeps)
        (HasNoAnswer post.client received (R.remaining reader.new))) }
    ensures end { result ≡ Err AnswerError.Ended → IsAtEnd (R.remaining reader.new) }
{
    let mut inbox = Inbox {
        client: post.client,
        input: BytesMut::new(alloc),
    };
    let head = read_head(&mut inbox, reader)?;
    if let Some(error) = no_answer_by(head.status) {
        return Err(error);
    }
    let (body, keeps) = match read_body(alloc, &mut inbox, reader, limit) {
        Ok(body) => (Ok(body), inbox.is_idle()),
        Err(error) => (Err(error), false),
    };
    Ok(Answer {
        status: head.status,
        retry_after: head.retry_after,
        body,
        keeps,
    })
}
