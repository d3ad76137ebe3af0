//! A reader's bytes in pieces: each call reads until a line is complete or the input is at its end, and gives the lines
//! that are complete. The line that is not ended yet is kept for the next call. An interrupted read is tried again.

ghost use Rattle.std.specs.Prelude.{◌≡◌, ◌≢◌, ◌+◌, ◌-◌, ◌<◌, ◌≤◌, [], All, IfOk, MatchOption, OnErr, OnOk, length, take, drop, slice_index};
ghost use Rattle.std.specs.Io.{ReadsAtMost};
ghost use Rattle.std.specs.Io.KnownBytes.{Consumes, IsAtEnd, Keeps};
ghost use Rattle.otel_trace_session.specs.Pieces.{Brings, EndsLines, EndsNoLine, GivesLines, KeepsAll, LastEnds};

use std::alloc::Global;
use std::io;
use std::io::{ErrorKind, Read};
use std::marker::Model;

/// How many bytes a read asks for: few enough that the memory of a piece's commands is used again by those of the next.
const CHUNK: usize = 8 * 1024;

/// What was read of an input: complete lines, and after them the line that is not ended yet.
#[derive(Drop)]
pub struct Pieces {
    // What was read stands in front, and after it is room.
    buffer: Vec<u8>,
    // How many bytes were read.
    filled: usize,
    // How many of them are complete lines.
    complete: usize,
}

impl Model for Pieces {
    ghost use Rattle.std.specs.Prelude.{◌≤◌, ◌≢◌, All, drop, length, take};
    ghost use Rattle.otel_trace_session.specs.Pieces.{PlainPieces};

    ghost Value = { PlainPieces };

    ghost view = { λ p. record {
      lines = take p.complete p.buffer.items;
      rest = drop p.complete (take p.filled p.buffer.items);
    } };

    ghost invariant = { λ p. (p.complete ≤ p.filled) × (p.filled ≤ length p.buffer.items)
        × All (λ b. b ≢ 10) (drop p.complete (take p.filled p.buffer.items)) };
}

impl Pieces {
    /// Nothing was read yet.
    pub fn new(alloc: Global) -> Pieces
        ensures { result ≡ record { lines = []; rest = [] } }
    {
        Pieces {
            buffer: Vec::new(alloc),
            filled: 0,
            complete: 0,
        }
    }

    /// The lines that were read last.
    pub fn lines(&self) -> &[u8]
        ensures { result.now ≡ self.now.lines }
    {
        &self.buffer[..self.complete]
    }

    /// Forgets the lines that were read last, and reads until a line is complete or the input is at its end, where what
    /// is left counts as one. The answer is whether the input may go on. On an error nothing that was read is lost.
    pub fn read_on<R: Read>(&mut self, reader: &mut R) -> io::Result<bool>
        ensures ok { IfOk result (λ goes_on. GivesLines (R.remaining reader.old) (R.remaining reader.new)
            self.old.rest goes_on self.new) }
        ensures err { OnErr result (KeepsAll (R.remaining reader.old) (R.remaining reader.new)
            self.old.rest self.new) }
    {
        self.forget_lines();
        let (filled, end) = fill_to_line(reader, &mut self.buffer, self.filled);
        self.filled = filled;
        match end? {
            Some(end) => {
                self.complete = end;
                Ok(true)
            }
            None => {
                self.complete = filled;
                Ok(false)
            }
        }
    }

    /// Forgets the lines that were read last.
    fn forget_lines(&mut self)
        ensures { self.new ≡ record { lines = []; rest = self.old.rest } }
    {
        self.buffer.copy_within(self.complete..self.filled, 0);
        self.filled -= self.complete;
        self.complete = 0;
    }
}

/// Reads after the bytes that are filled until a line ends or the input does. Answers how many bytes are filled then,
/// and where the last line ends; none at the end of the input.
fn fill_to_line<R: Read>(
    reader: &mut R,
    buffer: &mut Vec<u8>,
    filled: usize,
) -> (usize, io::Result<Option<usize>>)
    requires { filled ≤ length buffer.old.items }
    ensures within { (filled ≤ result.0) × (result.0 ≤ length buffer.new.items) }
    ensures front { take filled buffer.new.items ≡ take filled buffer.old.items }
    ensures read { Consumes (R.remaining reader.old) (R.remaining reader.new)
        (drop filled (take result.0 buffer.new.items)) }
    ensures ended { EndsLines (R.remaining reader.new) filled (take result.0 buffer.new.items) result.1 }
{
    let mut now = filled;
    for _ in 0..u64::MAX {
        match read_after(reader, buffer, now) {
            Ok(0) => return (now, Ok(None)),
            Ok(count) => {
                let before = now;
                now = before + count;
                if let Some(end) = last_line_end(&buffer[before..now]) {
                    return (now, Ok(Some(before + end)));
                }
            }
            Err(error) => return (now, Err(error)),
        }
    }
    (now, Err(io::Error::from(ErrorKind::TimedOut)))
}

/// How many bytes stand up to the last line feed, and it among them; none where there is no line feed.
fn last_line_end(bytes: &[u8]) -> Option<usize>
    ensures { MatchOption result (EndsNoLine bytes.now) (LastEnds bytes.now) }
{
    let mut end = bytes.len();
    while end > 0 {
        if bytes[end - 1] == b'\n' {
            return Some(end);
        }
        end -= 1;
    }
    None
}

/// Reads once after the bytes that are filled, and answers how many bytes came. Room is made first, so that nothing
/// that was read is lost where there is no memory.
fn read_after<R: Read>(reader: &mut R, buffer: &mut Vec<u8>, filled: usize) -> io::Result<usize>
    requires { filled ≤ length buffer.old.items }
    ensures within { filled ≤ length buffer.new.items }
    ensures front { take filled buffer.new.items ≡ take filled buffer.old.items }
    ensures ok { IfOk result
        (Brings (R.remaining reader.old) (R.remaining reader.new) buffer.new.items filled) }
    ensures err { OnErr result (Keeps (R.remaining reader.old) (R.remaining reader.new)) }
{
    make_room(buffer, filled)?;
    read_at(reader, buffer.as_mut_slice(), filled)
}

/// Makes a buffer longer than what is filled of it.
fn make_room(buffer: &mut Vec<u8>, filled: usize) -> io::Result<()>
    requires { filled ≤ length buffer.old.items }
    ensures within { filled ≤ length buffer.new.items }
    ensures front { take filled buffer.new.items ≡ take filled buffer.old.items }
    ensures room { OnOk result (filled < length buffer.new.items) }
{
    if buffer.len() == filled {
        let Some(wanted) = filled.checked_add(CHUNK) else {
            return Err(io::Error::from(ErrorKind::OutOfMemory));
        };
        buffer.resize(wanted, 0)?;
    }
    Ok(())
}

/// Reads once into the part of a buffer from here on.
fn read_at<R: Read>(reader: &mut R, buffer: &mut [u8], at: usize) -> io::Result<usize>
    requires { at < length buffer.old }
    ensures front { take at buffer.new ≡ take at buffer.old }
    ensures ok { IfOk result (Brings (R.remaining reader.old) (R.remaining reader.new) buffer.new at) }
    ensures err { OnErr result (Keeps (R.remaining reader.old) (R.remaining reader.new)) }
{
    read_uninterrupted(reader, &mut buffer[at..])
}

/// Reads once, and again where that was interrupted.
fn read_uninterrupted<R: Read>(reader: &mut R, buffer: &mut [u8]) -> io::Result<usize>
    ensures bound { ReadsAtMost result buffer.new }
    ensures ok { IfOk result (λ n. Consumes (R.remaining reader.old) (R.remaining reader.new) (take n buffer.new)) }
    ensures end { IfOk result (λ n. n ≡ 0 → 0 < length buffer.old → IsAtEnd (R.remaining reader.new)) }
    ensures err { OnErr result (Keeps (R.remaining reader.old) (R.remaining reader.new)) }
{
    for _ in 0..u64::MAX {
        match reader.read(buffer) {
            Ok(count) => return Ok(count),
            Err(error) => {
                if error.kind() != ErrorKind::Interrupted {
                    return Err(error);
                }
            }
        }
    }
    Err(io::Error::from(ErrorKind::TimedOut))
}
