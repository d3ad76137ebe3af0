//! Messages, and fields that hold them.

ghost use Rattle.otel_protobuf.specs.Progress.{Takes, TakesFields};
ghost use Rattle.otel_protobuf.specs.Wire.{after_length, message_bytes, nested, repeated};

use otel_protobuf::Sink;
use std::alloc::Global;

/// What is written as a message.
pub(crate) trait Message {
    ghost use Rattle.std.specs.Prelude.{List};
    ghost use Rattle.otel_protobuf.specs.Progress.{TakesFields};
    ghost use Rattle.otel_protobuf.specs.Wire.{Field};

    /// The fields of the message, in the order in which they stand.
    ghost fields: { Self → List Field };

    /// Hands the fields to a sink, the last one first. Memory is asked for only where a text of a field lies nowhere.
    fn write(&self, alloc: Global, sink: &mut Sink)
        ensures { TakesFields sink.old sink.new (fields self.now) };
}

/// A message after its length.
pub(crate) fn after_length<M: Message>(sink: &mut Sink, alloc: Global, message: &M)
    ensures { Takes sink.old sink.new (after_length (message_bytes (M.fields message.now))) }
{
    let end = sink.left();
    message.write(alloc, sink);
    sink.length_since(end);
}

/// A field that holds a message, also an empty one.
pub(crate) fn nested<M: Message>(sink: &mut Sink, alloc: Global, number: u32, message: &M)
    ensures { TakesFields sink.old sink.new (nested number (M.fields message.now)) }
{
    after_length(sink, alloc, message);
    sink.sized_key(number);
}

/// A field for each of some messages, also for empty ones.
pub(crate) fn repeated<M: Message>(sink: &mut Sink, alloc: Global, number: u32, messages: &[M])
    ensures { TakesFields sink.old sink.new (repeated number M.fields messages.now) }
{
    let mut rest = messages;
    while let Some((message, before)) = rest.split_last() {
        nested(sink, alloc, number, message);
        rest = before;
    }
}
