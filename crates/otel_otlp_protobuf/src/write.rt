//! A message at the end of bytes.

ghost use Rattle.std.specs.Prelude.{◌≡◌, ◌≤◌, ◌++◌, IfOk, IfSome, IsTrue, OnErr, OnOk, false, length, take, vec_len};
ghost use Rattle.otel_otlp_protobuf.specs.Framed.{framed};
ghost use Rattle.otel_protobuf.specs.Progress.{Takes};
ghost use Rattle.otel_protobuf.specs.Wire.{message_bytes};

use crate::message::{Message, after_length};
use otel_protobuf::Sink;
use std::alloc::{AllocError, Global};
use std::mem;

/// How a message stands among other bytes.
#[derive(Clone, Copy)]
pub(crate) enum Framing {
    /// By itself.
    Alone,
    /// After its length.
    AfterLength,
}

/// Appends a message. It is counted first, and memory is asked for once; on an error nothing is appended. A message of
/// more bytes than a `usize` counts is one that no memory has.
pub(crate) fn write_message<M: Message>(
    alloc: Global,
    out: &mut Vec<u8>,
    framing: Framing,
    message: &M,
) -> Result<(), AllocError>
    ensures ok { OnOk result (out.new.items
        ≡ out.old.items ++ framed framing (message_bytes (M.fields message.now))) }
    ensures err { OnErr result (out.new.items ≡ out.old.items) }
{
    let Some(size) = length_of(alloc, framing, message) else {
        return Err(AllocError);
    };
    let begun = make_room(out, size)?;
    if fill(alloc, out, begun, framing, message) {
        Ok(())
    } else {
        Err(AllocError)
    }
}

/// How many bytes a message has; nothing where something went wrong.
fn length_of<M: Message>(alloc: Global, framing: Framing, message: &M) -> Option<usize>
    ensures { IfSome result (λ total. total ≡ length (framed framing (message_bytes (M.fields message.now)))) }
{
    let mut count = Sink::counting(alloc);
    put(&mut count, alloc, framing, message);
    count.total()
}

/// Appends so many bytes, and answers where they begin. On an error nothing is appended.
fn make_room(out: &mut Vec<u8>, size: usize) -> Result<usize, AllocError>
    ensures ok { IfOk result (λ begun. (begun ≤ vec_len out.new) × (take begun out.new.items ≡ out.old.items)) }
    ensures err { OnErr result (out.new.items ≡ out.old.items) }
{
    let begun = out.len();
    let Some(end) = begun.checked_add(size) else {
        return Err(AllocError);
    };
    out.resize(end, 0)?;
    Ok(begun)
}

/// Writes a message over the bytes from a place on, and answers whether it fills them; else they are let go.
fn fill<M: Message>(
    alloc: Global,
    out: &mut Vec<u8>,
    begun: usize,
    framing: Framing,
    message: &M,
) -> bool
    requires { begun ≤ vec_len out.old }
    ensures whole { IsTrue result
        → out.new.items ≡ take begun out.old.items ++ framed framing (message_bytes (M.fields message.now)) }
    ensures cut { result ≡ false → out.new.items ≡ take begun out.old.items }
{
    let mut sink = Sink::over(mem::replace(out, Vec::new(alloc)), begun);
    put(&mut sink, alloc, framing, message);
    let (bytes, is_whole) = sink.into_bytes();
    *out = bytes;
    is_whole
}

/// Hands a message to a sink.
fn put<M: Message>(sink: &mut Sink, alloc: Global, framing: Framing, message: &M)
    ensures { Takes sink.old sink.new (framed framing (message_bytes (M.fields message.now))) }
{
    match framing {
        Framing::Alone => message.write(alloc, sink),
        Framing::AfterLength => after_length(sink, alloc, message),
    }
}
