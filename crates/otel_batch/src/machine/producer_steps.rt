//! The steps of the producers, and the posting of a resource. None takes memory: the queues have their room, and spans
//! are moved.

ghost use Rattle.std.specs.Prelude.{◌≡◌};

use crate::machine::batch_machine::BatchMachine;
use crate::machine::queue::{is_sampled, message_of, post_message, queue_span};
use crate::machine::slots::{
    after_send, is_asking, is_idle, is_posting, is_refused, is_resetting, number_held_at, set_slot,
    take_answer, take_span,
};
use crate::machine::state::{Message, Request, Slot};
use crate::machine::step::Outcome;
use otel_export::trace::{SpanData, SpanExporter};
use otel_resource::resource::Resource;

impl<E: SpanExporter> BatchMachine<E> {
    ghost use Rattle.otel_batch.specs.MachineState.{counts};
    ghost use Rattle.otel_batch.specs.ProducerSteps.{OfferRow, SendRow, UndoRow, AskRow, PostRow, ResetRow};
    ghost use Rattle.otel_batch.specs.RequestSteps.{RequestRow, CollectRow, ResourceRow};
    ghost use Rattle.otel_batch.specs.MovedSpans.{Keeps, MovesSpans};
    ghost use Rattle.otel_batch.specs.declared.machine.step.Step.TheVariants as step;

    #[tactic(auto, using(crate::proofs::SlotSums::slot_sums))]
    pub(super) fn offer(&mut self, p: usize, span: SpanData) -> Outcome
        ensures row { OfferRow (counts self.old) p span result (counts self.new) }
        ensures moved { Keeps self.old self.new }
    {
        if !is_idle(&self.slots, p) {
            drop(span);
            return Outcome::NotEnabled;
        }
        if !is_sampled(&span) {
            drop(span);
            return Outcome::Skipped;
        }
        self.counter += 1;
        let n = self.counter;
        set_slot(&mut self.slots, p, Slot::Holding(span, n));
        Outcome::Counted(n)
    }

    pub(super) fn send(&mut self, p: usize) -> Outcome
        ensures row { SendRow (counts self.old) p result (counts self.new) }
        ensures moved { MovesSpans E.SpanExporter self.old (step.Send p) result self.new }
    {
        let Some(n) = number_held_at(&self.slots, p) else {
            return Outcome::NotEnabled;
        };
        if self.closed {
            set_slot(&mut self.slots, p, Slot::Refused);
            return Outcome::Closed;
        }
        if self.waiting.is_full() {
            self.dropped = self.dropped.saturating_add(1);
            set_slot(&mut self.slots, p, Slot::Refused);
            return Outcome::Full;
        }
        let span = take_span(&mut self.slots, p, after_send(self.batch_size, n));
        let _ = queue_span(&mut self.waiting, span);
        Outcome::Accepted
    }

    pub(super) fn undo(&mut self, p: usize) -> Outcome
        ensures row { UndoRow (counts self.old) p result (counts self.new) }
        ensures moved { Keeps self.old self.new }
    {
        if !is_refused(&self.slots, p) {
            return Outcome::NotEnabled;
        }
        self.counter -= 1;
        set_slot(&mut self.slots, p, Slot::Idle);
        Outcome::Undone
    }

    pub(super) fn ask(&mut self, p: usize) -> Outcome
        ensures row { AskRow (counts self.old) p result (counts self.new) }
        ensures moved { Keeps self.old self.new }
    {
        if !is_asking(&self.slots, p) {
            return Outcome::NotEnabled;
        }
        if self.flag {
            set_slot(&mut self.slots, p, Slot::Idle);
            return Outcome::AlreadyAsked;
        }
        self.flag = true;
        set_slot(&mut self.slots, p, Slot::Posting);
        Outcome::MayPost
    }

    pub(super) fn post(&mut self, p: usize) -> Outcome
        ensures row { PostRow (counts self.old) p result (counts self.new) }
        ensures moved { Keeps self.old self.new }
    {
        if !is_posting(&self.slots, p) {
            return Outcome::NotEnabled;
        }
        if self.closed {
            set_slot(&mut self.slots, p, Slot::Resetting);
            return Outcome::Closed;
        }
        if !post_message(&mut self.messages, Message::Export) {
            set_slot(&mut self.slots, p, Slot::Resetting);
            return Outcome::Full;
        }
        set_slot(&mut self.slots, p, Slot::Idle);
        Outcome::Posted
    }

    pub(super) fn reset(&mut self, p: usize) -> Outcome
        ensures row { ResetRow (counts self.old) p result (counts self.new) }
        ensures moved { Keeps self.old self.new }
    {
        if !is_resetting(&self.slots, p) {
            return Outcome::NotEnabled;
        }
        self.flag = false;
        set_slot(&mut self.slots, p, Slot::Idle);
        Outcome::ResetDone
    }

    pub(super) fn request(&mut self, request: Request, p: usize) -> Outcome
        ensures row { RequestRow (counts self.old) request p result (counts self.new) }
        ensures moved { Keeps self.old self.new }
    {
        if !is_idle(&self.slots, p) {
            return Outcome::NotEnabled;
        }
        if self.closed {
            return Outcome::Closed;
        }
        if !post_message(&mut self.messages, message_of(request, p)) {
            return Outcome::Full;
        }
        set_slot(&mut self.slots, p, Slot::Waiting(request));
        Outcome::Requested
    }

    pub(super) fn collect(&mut self, p: usize) -> Outcome
        ensures row { CollectRow (counts self.old) p result (counts self.new) }
        ensures moved { Keeps self.old self.new }
    {
        let Some(answer) = take_answer(&mut self.slots, p) else {
            return Outcome::NotEnabled;
        };
        Outcome::Collected(answer)
    }

    pub(super) fn post_resource(&mut self, resource: Resource) -> Outcome
        ensures row { ResourceRow (counts self.old) resource result (counts self.new) }
        ensures moved { Keeps self.old self.new }
    {
        if self.closed {
            drop(resource);
            return Outcome::Closed;
        }
        if !post_message(&mut self.messages, Message::Resource(resource)) {
            return Outcome::Full;
        }
        Outcome::Posted
    }
}
