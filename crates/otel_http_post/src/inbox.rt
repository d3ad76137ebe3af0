//! What came from the other side and was not read yet.

ghost use Rattle.std.specs.Prelude.{◌≡◌, ℕ, ◌==◌, ◌&&◌, ◌++◌, List, length, IfErr, IfOk, Ok, OnErr};
ghost use Rattle.std.specs.Io.KnownBytes.{Consumes, IsAtEnd, Keeps};
ghost use Rattle.http1.specs.Conn.{awaits_head};
ghost use Rattle.otel_http_post.specs.Following.{IsOfStream};

use crate::error::AnswerError;
use bytes::BytesMut;
use http1::Client;
use std::io::{ErrorKind, Read};

/// How many bytes are read at once, at most.
const READ_SIZE: usize = 4096;

/// The client that reads the answer, and the bytes that came and that it has not read.
#[derive(Drop)]
pub(crate) struct Inbox {
    pub(crate) client: Client,
    pub(crate) input: BytesMut,
}

impl Inbox {
    /// Reads once more, and says how many bytes came: none at the end of the stream. An interrupted read is tried
    /// again.
    pub(crate) fn fill<R: Read>(&mut self, reader: &mut R) -> Result<usize, AnswerError>
        ensures ok { IfOk result (λ count. (more : List ℕ) × (length more ≡ count)
            × (self.new.input.items ≡ self.old.input.items ++ more)
            × Consumes (R.remaining reader.old) (R.remaining reader.new) more) }
        ensures client { self.new.client ≡ self.old.client }
        ensures end { result ≡ Ok 0 → IsAtEnd (R.remaining reader.new) }
        ensures err { OnErr result (Keeps (R.remaining reader.old) (R.remaining reader.new)) }
        ensures failed { IfErr result IsOfStream }
    {
        if self.input.reserve(READ_SIZE).is_err() {
            return Err(AnswerError::OutOfMemory);
        }
        for _ in 0..u64::MAX {
            match self.input.read_from(reader) {
                Ok(count) => return Ok(count),
                Err(error) => {
                    if error.kind() != ErrorKind::Interrupted {
                        return Err(AnswerError::Stream(error.kind()));
                    }
                }
            }
        }
        Err(AnswerError::Stream(ErrorKind::TimedOut))
    }

    /// Whether another request can be sent, and nothing came that was not read.
    pub(crate) fn is_idle(&self) -> bool
        ensures { result ≡ (awaits_head self.now.client.writing && (length self.now.input.items == 0)) }
    {
        self.client.is_idle() && self.input.is_empty()
    }
}
