//! The head of an answer, after those that only inform.

ghost use Rattle.std.specs.Prelude.{◌≡◌, ◌≢◌, ◌++◌, ℕ, List, Err, IfErr, IfOk, MatchResult};
ghost use Rattle.std.specs.Io.KnownBytes.{Consumes, IsAtEnd};
ghost use Rattle.otel_http_post.specs.Following.{HasHead, HasNone, IsWaiting, RefusesHead, TakesHead};

use crate::error::AnswerError;
use crate::inbox::Inbox;
use crate::retry_after::retry_after;
use http1::{Event, ReadError};
use httparse::spans::EMPTY_HEADER_SPAN;
use std::io::{ErrorKind, Read};

/// How many headers an answer may have, and how many trailers.
pub(crate) const MAX_HEADERS: usize = 64;

/// What is kept of a head.
#[derive(Clone, Copy, Debug)]
pub(crate) struct AnswerHead {
    pub(crate) status: u16,
    pub(crate) retry_after: Option<u64>,
}

/// What a step found.
#[derive(Clone, Copy, Debug)]
pub(crate) enum HeadStep {
    /// More bytes have to come.
    More,
    /// A head that only informs, which another follows.
    Informed,
    /// The head of the answer.
    Found(AnswerHead),
}

/// Reads a head, if it is there.
fn next_head(inbox: &mut Inbox) -> Result<HeadStep, AnswerError>
    ensures ok { IfOk result
        (TakesHead inbox.old.client inbox.old.input.items inbox.new.client inbox.new.input.items) }
    ensures err { IsWaiting inbox.old.client
        → IfErr result (RefusesHead inbox.old.client inbox.old.input.items) }
    ensures never_ended { result ≢ Err AnswerError.Ended }
{
    let mut spans = [EMPTY_HEADER_SPAN; MAX_HEADERS];
    let read = match inbox.client.read(inbox.input.as_slice(), &mut spans) {
        Ok(read) => read,
        Err(error) => return Err(AnswerError::Unreadable(error)),
    };
    let step = match read.event {
        Event::NeedMore => HeadStep::More,
        Event::Informational(_) => HeadStep::Informed,
        Event::Head(head) => HeadStep::Found(AnswerHead {
            status: head.code,
            retry_after: retry_after(inbox.input.as_slice(), &spans[..head.headers]),
        }),
        _ => return Err(AnswerError::Unreadable(ReadError::UnexpectedResponse)),
    };
    inbox.input.advance(read.consumed);
    Ok(step)
}

/// Reads until the head of the answer is there.
pub(crate) fn read_head<R: Read>(
    inbox: &mut Inbox,
    reader: &mut R,
) -> Result<AnswerHead, AnswerError>
    ensures read { (received : List ℕ) × Consumes (R.remaining reader.old) (R.remaining reader.new) received
        × (IsWaiting inbox.old.client → MatchResult result
        (HasHead inbox.old.client (inbox.old.input.items ++ received) inbox.new.client inbox.new.input.items)
        (HasNone inbox.old.client (inbox.old.input.items ++ received) (R.remaining reader.new))) }
    ensures end { result ≡ Err AnswerError.Ended → IsAtEnd (R.remaining reader.new) }
{
    'heads: for _ in 0..u64::MAX {
        match next_head(inbox)? {
            HeadStep::Found(head) => return Ok(head),
            HeadStep::Informed => {}
            HeadStep::More => {
                if inbox.fill(reader)? == 0 {
                    return Err(AnswerError::Ended);
                }
            }
        }
    }
    Err(AnswerError::Stream(ErrorKind::TimedOut))
}
