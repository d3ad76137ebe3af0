//! The spans that wait in a batch queue, the hand of its worker and the messages of its control queue.

ghost use Rattle.std.specs.Prelude.{◌≡◌, ◌≤◌, ◌<◌, ◌++◌, ◌∷◌, [], true, false, length, vec_len, vec_capacity};
ghost use Rattle.circular_buffer.specs.Buffer.{buffer};
ghost use Rattle.otel_export.specs.PlainSpanData.{is_sampled};
ghost use Rattle.otel_batch.specs.MachineState.{batch_limit as limit_by};
ghost use Rattle.otel_batch.specs.Messages.{message_of as message_by};

use crate::machine::span_queue::SpanQueue;
use crate::machine::state::{Message, Request};
use circular_buffer::HeapCircularBuffer;
use otel_export::trace::SpanData;

/// Whether a span is sampled.
#[inline(always)]
pub(super) fn is_sampled(span: &SpanData) -> bool
    ensures { result ≡ is_sampled span.now }
{
    span.span_context.is_sampled()
}

/// Puts a span last among those that wait, or drops it where there is no room. Says whether there was.
#[inline(always)]
pub(super) fn queue_span(waiting: &mut SpanQueue<SpanData>, span: SpanData) -> bool
    ensures room { length waiting.old.items < waiting.old.capacity → result ≡ true }
    ensures queued { result ≡ true → (length waiting.old.items < waiting.old.capacity)
        × (waiting.new ≡ buffer (waiting.old.items ++ span ∷ []) waiting.old.capacity) }
    ensures full { result ≡ false → (waiting.old.capacity ≤ length waiting.old.items)
        × (waiting.new ≡ waiting.old) }
{
    waiting.try_push_back(span).is_ok()
}

/// Puts a message last into the control queue, or drops it where there is no room. Says whether there was.
pub(super) fn post_message(messages: &mut HeapCircularBuffer<Message>, message: Message) -> bool
    ensures posted { result ≡ true → (length messages.old.items < messages.old.capacity)
        × (messages.new ≡ buffer (messages.old.items ++ message ∷ []) messages.old.capacity) }
    ensures full { result ≡ false → (messages.old.capacity ≤ length messages.old.items)
        × (messages.new ≡ messages.old) }
{
    messages.try_push_back(message).is_ok()
}

/// The most spans that the next batch may have.
pub(super) fn batch_limit(queue_size: usize, batch_size: usize, target: u128, done: u128) -> usize
    requires { done ≤ target }
    ensures { result ≡ limit_by queue_size batch_size target done }
{
    if batch_size == 0 {
        return queue_size;
    }
    let left = target - done;
    if left < batch_size as u128 {
        left as usize
    } else {
        batch_size
    }
}

/// Makes sure that an empty hand has room for a batch.
pub(super) fn has_room(hand: &mut Vec<SpanData>, limit: usize) -> bool
    ensures items { hand.new.items ≡ hand.old.items }
    ensures len { vec_len hand.new ≡ vec_len hand.old }
    ensures capacity { vec_capacity hand.old ≤ vec_capacity hand.new }
    ensures room { result ≡ true → vec_len hand.old ≡ 0 → limit ≤ vec_capacity hand.new }
    ensures refused { result ≡ false → vec_len hand.old ≡ 0 }
{
    if !hand.is_empty() {
        return true;
    }
    hand.reserve(limit).is_ok()
}

/// The message by which p asks.
pub(super) fn message_of(request: Request, p: usize) -> Message
    ensures { result ≡ message_by request p }
{
    match request {
        Request::Flush => Message::Flush(p),
        Request::Shutdown => Message::Shutdown(p),
    }
}
