//! The body of an answer.

ghost use Rattle.std.specs.Prelude.{◌≡◌, ◌≢◌, ◌++◌, ◌≤◌, ℕ, List, [], Err, IfErr, IfOk, MatchResult, OnOk, length};
ghost use Rattle.std.specs.Io.KnownBytes.{Consumes, IsAtEnd};
ghost use Rattle.http1.specs.Client.{closed_client};
ghost use Rattle.http1.specs.declared.conn.Reading.TheVariants as Reads;
ghost use Rattle.http1.specs.declared.decode.Decoder.{Decoder};
ghost use Rattle.http1.specs.declared.decode.Decoder.TheVariants.{UntilClose};
ghost use Rattle.otel_http_post.specs.Following.{HasBody, IsInBody, LeavesBody, RefusesKeeping, RefusesPiece, TakesPiece};

use crate::error::AnswerError;
use crate::head::MAX_HEADERS;
use crate::inbox::Inbox;
use http1::{Event, ReadError};
use httparse::spans::EMPTY_HEADER_SPAN;
use std::alloc::Global;
use std::io::{ErrorKind, Read};

/// What a step found.
#[derive(Clone, Copy, Debug)]
pub(crate) enum BodyStep {
    /// More bytes have to come.
    More,
    /// A piece was kept.
    Kept,
    /// The body has ended.
    Ended,
}

/// Keeps a piece, where the body stays within the limit.
fn keep(body: &mut Vec<u8>, piece: &[u8], limit: usize) -> Result<(), AnswerError>
    ensures ok { OnOk result (body.new.items ≡ body.old.items ++ piece.now) }
    ensures within { OnOk result (length body.old.items ≤ limit → length body.new.items ≤ limit) }
    ensures err { IfErr result (RefusesKeeping limit body.old.items piece.now) }
{
    if piece.len() > limit.saturating_sub(body.len()) {
        return Err(AnswerError::TooLarge);
    }
    match body.extend_from_slice(piece) {
        Ok(()) => Ok(()),
        Err(_) => Err(AnswerError::OutOfMemory),
    }
}

/// Reads a piece of the body, or its end.
fn next_piece(inbox: &mut Inbox, body: &mut Vec<u8>, limit: usize) -> Result<BodyStep, AnswerError>
    ensures ok { IfOk result (TakesPiece inbox.old.client inbox.old.input.items body.old.items
        inbox.new.client inbox.new.input.items body.new.items) }
    ensures within { OnOk result (length body.old.items ≤ limit → length body.new.items ≤ limit) }
    ensures err { (decoder : Decoder) → inbox.old.client.reading ≡ Reads.Body decoder
        → IfErr result (RefusesPiece decoder inbox.old.input.items body.old.items limit) }
    ensures never_ended { result ≢ Err AnswerError.Ended }
{
    let mut spans = [EMPTY_HEADER_SPAN; MAX_HEADERS];
    let read = match inbox.client.read(inbox.input.as_slice(), &mut spans) {
        Ok(read) => read,
        Err(error) => return Err(AnswerError::Unreadable(error)),
    };
    let step = match read.event {
        Event::NeedMore => BodyStep::More,
        Event::Data(span) => {
            keep(body, span.of(inbox.input.as_slice()), limit)?;
            BodyStep::Kept
        }
        Event::End(_) => BodyStep::Ended,
        _ => return Err(AnswerError::Unreadable(ReadError::UnexpectedResponse)),
    };
    inbox.input.advance(read.consumed);
    Ok(step)
}

/// Reads until the body has ended, which is of at most `limit` bytes. A body may run until the stream ends.
pub(crate) fn read_body<R: Read>(
    alloc: Global,
    inbox: &mut Inbox,
    reader: &mut R,
    limit: usize,
) -> Result<Vec<u8>, AnswerError>
    ensures read { (received : List ℕ) × Consumes (R.remaining reader.old) (R.remaining reader.new) received
        × ((first : Decoder) → IsInBody inbox.old.client first → MatchResult result
        (λ body. HasBody inbox.old.client first (inbox.old.input.items ++ received) (R.remaining reader.new) limit
        body.items inbox.new.client inbox.new.input.items)
        (LeavesBody first (inbox.old.input.items ++ received) (R.remaining reader.new) limit)) }
    ensures end { result ≡ Err AnswerError.Ended → IsAtEnd (R.remaining reader.new) }
{
    let mut body = Vec::new(alloc);
    'pieces: for _ in 0..u64::MAX {
        match next_piece(inbox, &mut body, limit)? {
            BodyStep::Ended => return Ok(body),
            BodyStep::Kept => {}
            BodyStep::More => {
                if inbox.fill(reader)? == 0 {
                    end_of_stream(inbox)?;
                    return Ok(body);
                }
            }
        }
    }
    Err(AnswerError::Stream(ErrorKind::TimedOut))
}

/// What the end of the stream makes of a body that has not ended.
fn end_of_stream(inbox: &mut Inbox) -> Result<(), AnswerError>
    ensures until_close { OnOk result (inbox.old.client.reading ≡ Reads.Body UntilClose) }
    ensures nothing_left { OnOk result ((inbox.old.input.items ≡ []) × (inbox.new.input.items ≡ [])) }
    ensures closes { OnOk result (inbox.new.client ≡ closed_client inbox.old.client) }
    ensures err { IfErr result (λ error. error ≡ AnswerError.Ended) }
{
    if !inbox.input.is_empty() {
        return Err(AnswerError::Ended);
    }
    match inbox.client.read_eof() {
        Ok(Event::End(_)) => Ok(()),
        _ => Err(AnswerError::Ended),
    }
}
