//! Runs of steps that are taken at once, by whoever is the only producer: what each does is a run of the table's steps,
//! without a look at the table for each span.

ghost use Rattle.std.specs.Prelude.{◌≡◌, Some, slice_get};

use crate::machine::batch_machine::BatchMachine;
use crate::machine::queue::{batch_limit, is_sampled, post_message, queue_span};
use crate::machine::state::{Message, Worker};
use otel_export::trace::{SpanData, SpanExporter};

impl<E: SpanExporter> BatchMachine<E> {
    ghost use Rattle.otel_batch.specs.WorkedOff.{OffersSpan, PullsBatch, next_of_worker};
    ghost use Rattle.otel_batch.specs.declared.machine.state.Slot.TheVariants as slot;
    ghost use Rattle.otel_batch.specs.declared.machine.step.Step.TheVariants as step;

    /// The first producer, which is idle, offers a span and does what is then to be done with it: the span waits, or is
    /// dropped, since it is not sampled or finds the queue closed or full.
    #[inline(always)]
    #[tactic(auto, using(crate::proofs::SlotSums::slot_sums))]
    pub fn put(&mut self, span: SpanData)
        requires { slice_get self.old.control.slots 0 ≡ Some slot.Idle }
        ensures { OffersSpan E.SpanExporter self.old span self.new }
    {
        self.is_sound();
        if !is_sampled(&span) {
            drop(span);
            return;
        }
        if self.closed {
            drop(span);
            return;
        }
        if !queue_span(&mut self.waiting, span) {
            self.dropped = self.dropped.saturating_add(1);
            return;
        }
        self.counter += 1;
        if self.counter < self.batch_size as u128 {
            return;
        }
        if self.flag {
            return;
        }
        if post_message(&mut self.messages, Message::Export) {
            self.flag = true;
        }
    }

    /// The worker, which pulls, fills its hand, up to where that is a batch or no span waits. Where there is no memory
    /// for a batch its drain ends.
    pub fn pull_batch(&mut self)
        requires { next_of_worker self.old.control ≡ Some step.Pull }
        ensures { PullsBatch E.SpanExporter self.old self.new }
    {
        self.is_sound();
        let _ = self.pull();
        self.is_sound();
        let Worker::Pulling = self.worker else {
            return;
        };
        // The first pull took the room of a whole batch.
        let limit = batch_limit(
            self.waiting.capacity(),
            self.batch_size,
            self.target,
            self.done,
        );
        let room = limit - self.hand.len();
        self.waiting.pop_into(&mut self.hand, room);
        self.worker = Worker::Handing;
    }
}
