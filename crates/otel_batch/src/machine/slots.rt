//! Looks at the producers of a batch queue, and changes to one of them.

ghost use Rattle.std.specs.Prelude.{◌≡◌, ℕ, ◌≤◌, ◌<◌, sum_by, true, false, [], ◌∷◌, IfOk, IfSome, IfNone};
ghost use Rattle.std.specs.Prelude.{Some, slice_get, slice_set, length, replicate};
ghost use Rattle.otel_batch.specs.Slots.{is_idle, is_refused, is_asking, is_posting, is_resetting};
ghost use Rattle.otel_batch.specs.Slots.{is_holding, number_held, is_answered, span_held};
ghost use Rattle.otel_batch.specs.Slots.{slot_counts, slot_asks, slot_waits};
ghost use Rattle.otel_batch.specs.Messages.{message_names};
ghost use Rattle.otel_batch.specs.ProducerSteps.{after_send};
ghost use Rattle.otel_batch.specs.DrainResult.{IsErrorOf};
ghost use Rattle.otel_batch.specs.DrainEnds.{IsDropped, SaysDropped};
ghost use Rattle.otel_batch.specs.declared.machine.state.Slot.TheVariants as slot;

use crate::machine::state::{Message, Slot};
use circular_buffer::HeapCircularBuffer;
use otel_export::error::{OTelSdkError, OTelSdkResult};
use otel_export::trace::SpanData;
use std::alloc::{AllocError, Global};
use std::mem;

/// Slots that are all idle.
pub(super) fn idle_slots(alloc: Global, producers: usize) -> Result<Vec<Slot>, AllocError>
    ensures { IfOk result (λ slots. slots.items ≡ replicate producers slot.Idle) }
{
    let mut slots = Vec::with_capacity(alloc, producers)?;
    for i in 0..producers {
        slots.push_reserved(Slot::Idle);
    }
    Ok(slots)
}

/// Whether a producer is there, and idle.
pub(super) fn is_idle(slots: &[Slot], p: usize) -> bool
    ensures found { result ≡ true → slice_get slots.now p ≡ Some slot.Idle }
    ensures within { result ≡ true → p < length slots.now }
    ensures other { result ≡ false → is_idle (slice_get slots.now p) ≡ false }
{
    matches!(slots.get(p), Some(Slot::Idle))
}

/// Whether a producer is there, and its span was refused.
pub(super) fn is_refused(slots: &[Slot], p: usize) -> bool
    ensures found { result ≡ true → slice_get slots.now p ≡ Some slot.Refused }
    ensures within { result ≡ true → p < length slots.now }
    ensures other { result ≡ false → is_refused (slice_get slots.now p) ≡ false }
{
    matches!(slots.get(p), Some(Slot::Refused))
}

/// Whether a producer is there, and wants a batch exported.
pub(super) fn is_asking(slots: &[Slot], p: usize) -> bool
    ensures found { result ≡ true → slice_get slots.now p ≡ Some slot.Asking }
    ensures within { result ≡ true → p < length slots.now }
    ensures other { result ≡ false → is_asking (slice_get slots.now p) ≡ false }
{
    matches!(slots.get(p), Some(Slot::Asking))
}

/// Whether a producer is there, and may post its wish.
pub(super) fn is_posting(slots: &[Slot], p: usize) -> bool
    ensures found { result ≡ true → slice_get slots.now p ≡ Some slot.Posting }
    ensures within { result ≡ true → p < length slots.now }
    ensures other { result ≡ false → is_posting (slice_get slots.now p) ≡ false }
{
    matches!(slots.get(p), Some(Slot::Posting))
}

/// Whether a producer is there, and is to take its wish back.
pub(super) fn is_resetting(slots: &[Slot], p: usize) -> bool
    ensures found { result ≡ true → slice_get slots.now p ≡ Some slot.Resetting }
    ensures within { result ≡ true → p < length slots.now }
    ensures other { result ≡ false → is_resetting (slice_get slots.now p) ≡ false }
{
    matches!(slots.get(p), Some(Slot::Resetting))
}

/// The number of the span that a slot holds.
pub(super) fn number_held_at(slots: &[Slot], p: usize) -> Option<u128>
    ensures some { IfSome result (λ n. is_holding (slice_get slots.now p) ≡ true) }
    ensures number { IfSome result (λ n. number_held (slice_get slots.now p) ≡ n) }
    ensures within { IfSome result (λ n. p < length slots.now) }
    ensures none { IfNone result (is_holding (slice_get slots.now p) ≡ false) }
{
    match slots.get(p) {
        Some(Slot::Holding(_, n)) => Some(*n),
        _ => None,
    }
}

/// What a producer is at whose span was queued as the n-th that is counted: from the size of a batch on it wants that
/// exported.
pub(super) fn after_send(batch_size: usize, n: u128) -> Slot
    ensures { result ≡ after_send batch_size n }
{
    if batch_size as u128 <= n {
        Slot::Asking
    } else {
        Slot::Idle
    }
}

/// Puts a slot in the place of another one.
pub(super) fn set_slot(slots: &mut Vec<Slot>, p: usize, slot: Slot)
    requires { p < length slots.old.items }
    ensures { slots.new.items ≡ slice_set slots.old.items p slot }
{
    slots[p] = slot;
}

/// Takes out the span that a slot holds, and leaves another slot.
pub(super) fn take_span(slots: &mut Vec<Slot>, p: usize, after: Slot) -> SpanData
    requires within { p < length slots.old.items }
    requires holding { is_holding (slice_get slots.old.items p) ≡ true }
    ensures span { span_held (slice_get slots.old.items p) ≡ result ∷ [] }
    ensures after { slots.new.items ≡ slice_set slots.old.items p after }
{
    match mem::replace(&mut slots[p], after) {
        Slot::Holding(span, _) => span,
        _ => unreachable!(),
    }
}

/// Takes out the answer that a slot has, which is idle from then on.
pub(super) fn take_answer(slots: &mut Vec<Slot>, p: usize) -> Option<OTelSdkResult>
    ensures some { IfSome result (λ r. slice_get slots.old.items p ≡ Some (slot.Answered r)) }
    ensures after { IfSome result (λ _. slots.new.items ≡ slice_set slots.old.items p slot.Idle) }
    ensures none { IfNone result (is_answered (slice_get slots.old.items p) ≡ false) }
    ensures same { IfNone result (slots.new.items ≡ slots.old.items) }
{
    let Some(Slot::Answered(_)) = slots.get(p) else {
        return None;
    };
    match mem::replace(&mut slots[p], Slot::Idle) {
        Slot::Answered(answer) => Some(answer),
        _ => unreachable!(),
    }
}

/// The error of an answer, without the text of a failure.
pub(super) fn error_of(answer: &OTelSdkResult, alloc: Global) -> Option<OTelSdkError>
    ensures { IsErrorOf answer.now result }
{
    match answer {
        Ok(()) => None,
        Err(OTelSdkError::AlreadyShutdown) => Some(OTelSdkError::AlreadyShutdown),
        Err(OTelSdkError::Timeout(duration)) => Some(OTelSdkError::Timeout(*duration)),
        Err(OTelSdkError::InternalFailure(_)) => {
            Some(OTelSdkError::InternalFailure(String::new(alloc)))
        }
        Err(OTelSdkError::OutOfMemory) => Some(OTelSdkError::OutOfMemory),
    }
}

/// Drops every message of the control queue, and answers each request among them with an error.
pub(super) fn drop_requests(
    messages: &mut HeapCircularBuffer<Message>,
    slots: &mut Vec<Slot>,
    alloc: Global,
)
    requires { (p : ℕ) → sum_by (message_names p) messages.old.items ≤ slot_waits (slice_get slots.old.items p) }
    ensures empty { messages.new.items ≡ [] }
    ensures capacity { messages.new.capacity ≡ messages.old.capacity }
    ensures dropped { (p : ℕ) → IsDropped (sum_by (message_names p) messages.old.items)
        (slice_get slots.old.items p) (slice_get slots.new.items p) }
    ensures len { length slots.new.items ≡ length slots.old.items }
    ensures counts { sum_by slot_counts slots.new.items ≡ sum_by slot_counts slots.old.items }
    ensures asks { sum_by slot_asks slots.new.items ≡ sum_by slot_asks slots.old.items }
{
    while let Some(message) = messages.pop_front() {
        match message {
            Message::Flush(p) => set_slot(slots, p, dropped_by_shutdown(alloc)),
            Message::Shutdown(p) => set_slot(slots, p, dropped_by_shutdown(alloc)),
            Message::Export => {}
            Message::Resource(_) => {}
        }
    }
}

/// The answer to a request that a shutdown found in the control queue. Where there is no memory for its text, the text
/// is empty.
fn dropped_by_shutdown(alloc: Global) -> Slot
    ensures { SaysDropped (Some result) }
{
    let reason = match String::from_str(alloc, "request dropped by shutdown") {
        Ok(reason) => reason,
        Err(_) => String::new(alloc),
    };
    Slot::Answered(Err(OTelSdkError::InternalFailure(reason)))
}
