//! The steps of the worker. Only `pull` needs memory, and only with an empty hand where spans wait: room for a whole
//! batch, which the exporter may have left from the one before. `close` writes a reason to each request that it drops,
//! which is empty where there is no memory. What an exporter itself takes is its own.

ghost use Rattle.std.specs.Prelude.{◌≡◌};
ghost use Rattle.otel_batch.specs.DrainResult.{first_failure};

use crate::machine::batch_machine::BatchMachine;
use crate::machine::queue::{batch_limit, has_room};
use crate::machine::slots::{drop_requests, error_of, set_slot};
use crate::machine::state::{Message, Slot, Why, Worker};
use crate::machine::step::Outcome;
use otel_export::error::{OTelSdkError, OTelSdkResult};
use otel_export::trace::SpanExporter;
use std::mem;

impl<E: SpanExporter> BatchMachine<E> {
    ghost use Rattle.otel_batch.specs.MachineState.{counts};
    ghost use Rattle.otel_batch.specs.WorkerSteps.{TakeRow, TickRow, ClearRow, LoadRow, PullRow};
    ghost use Rattle.otel_batch.specs.WorkerSteps.{HandOverRow, SubtractRow};
    ghost use Rattle.otel_batch.specs.DrainEnds.{FinishRow, CloseRow};
    ghost use Rattle.otel_batch.specs.MovedSpans.{Keeps, MovesSpans};
    ghost use Rattle.otel_batch.specs.declared.machine.step.Step.TheVariants as step;

    pub(super) fn take(&mut self) -> Outcome
        ensures row { TakeRow (counts self.old) result (counts self.new) }
        ensures moved { MovesSpans E.SpanExporter self.old step.Take result self.new }
    {
        let Worker::Ready = self.worker else {
            return Outcome::NotEnabled;
        };
        match self.messages.pop_front() {
            None => Outcome::Nothing,
            Some(Message::Export) => {
                self.worker = Worker::Clearing;
                Outcome::TookExport
            }
            Some(Message::Flush(p)) => {
                self.worker = Worker::Loading(Why::Flush(p));
                Outcome::TookFlush(p)
            }
            Some(Message::Shutdown(p)) => {
                self.worker = Worker::Loading(Why::Shutdown(p));
                Outcome::TookShutdown(p)
            }
            Some(Message::Resource(resource)) => {
                self.exporter.set_resource(&resource);
                drop(resource);
                Outcome::TookResource
            }
        }
    }

    pub(super) fn tick(&mut self) -> Outcome
        ensures row { TickRow (counts self.old) result (counts self.new) }
        ensures moved { Keeps self.old self.new }
    {
        let Worker::Ready = self.worker else {
            return Outcome::NotEnabled;
        };
        self.worker = Worker::Loading(Why::Timer);
        Outcome::Ticked
    }

    pub(super) fn clear(&mut self) -> Outcome
        ensures row { ClearRow (counts self.old) result (counts self.new) }
        ensures moved { Keeps self.old self.new }
    {
        let Worker::Clearing = self.worker else {
            return Outcome::NotEnabled;
        };
        self.flag = false;
        self.worker = Worker::Loading(Why::Asked);
        Outcome::Cleared
    }

    #[tactic(auto, using(crate::proofs::SlotSums::slot_sums))]
    pub(super) fn load(&mut self) -> Outcome
        ensures row { LoadRow (counts self.old) result (counts self.new) }
        ensures moved { Keeps self.old self.new }
    {
        let Worker::Loading(why) = self.worker else {
            return Outcome::NotEnabled;
        };
        self.why = why;
        self.target = self.counter;
        self.done = 0;
        drop(mem::replace(&mut self.result, Ok(())));
        self.refused = false;
        self.worker = if self.counter == 0 {
            Worker::Finishing
        } else {
            Worker::Pulling
        };
        Outcome::Loaded(self.counter)
    }

    pub(super) fn pull(&mut self) -> Outcome
        ensures row { PullRow (counts self.old) result (counts self.new) }
        ensures moved { MovesSpans E.SpanExporter self.old step.Pull result self.new }
    {
        let Worker::Pulling = self.worker else {
            return Outcome::NotEnabled;
        };
        let limit = batch_limit(
            self.waiting.capacity(),
            self.batch_size,
            self.target,
            self.done,
        );
        if self.waiting.is_empty() {
            self.worker = if self.hand.is_empty() {
                Worker::Finishing
            } else {
                Worker::Handing
            };
            return Outcome::Empty;
        }
        if !has_room(&mut self.hand, limit) {
            self.refused = true;
            keep_failure(&mut self.result, Err(OTelSdkError::OutOfMemory));
            self.worker = Worker::Finishing;
            return Outcome::NoMemory;
        }
        self.waiting.pop_into(&mut self.hand, 1);
        self.worker = if self.hand.len() < limit {
            Worker::Pulling
        } else {
            Worker::Handing
        };
        Outcome::Pulled
    }

    pub(super) fn hand_over(&mut self) -> Outcome
        ensures row { HandOverRow (counts self.old) result (counts self.new) }
        ensures moved { MovesSpans E.SpanExporter self.old step.HandOver result self.new }
    {
        let Worker::Handing = self.worker else {
            return Outcome::NotEnabled;
        };
        let count = self.hand.len();
        let answer = self.exporter.export_from(&mut self.hand);
        let error = error_of(&answer, self.alloc);
        keep_failure(&mut self.result, answer);
        self.worker = Worker::Subtracting(count);
        Outcome::HandedOver(count, error)
    }

    pub(super) fn subtract(&mut self) -> Outcome
        ensures row { SubtractRow (counts self.old) result (counts self.new) }
        ensures moved { Keeps self.old self.new }
    {
        let Worker::Subtracting(count) = self.worker else {
            return Outcome::NotEnabled;
        };
        self.counter -= count as u128;
        self.done += count as u128;
        self.worker = if self.done < self.target {
            Worker::Pulling
        } else {
            Worker::Finishing
        };
        Outcome::Subtracted
    }

    pub(super) fn finish(&mut self) -> Outcome
        ensures row { FinishRow (counts self.old) result (counts self.new) }
        ensures moved { Keeps self.old self.new }
    {
        let Worker::Finishing = self.worker else {
            return Outcome::NotEnabled;
        };
        let answer = mem::replace(&mut self.result, Ok(()));
        match self.why {
            Why::Asked => {
                self.worker = Worker::Ready;
                Outcome::Finished(answer.err())
            }
            Why::Timer => {
                self.worker = Worker::Ready;
                Outcome::Finished(answer.err())
            }
            Why::Flush(p) => {
                set_slot(&mut self.slots, p, Slot::Answered(answer));
                self.worker = Worker::Ready;
                Outcome::Finished(None)
            }
            Why::Shutdown(p) => {
                drop(answer);
                if self.refused {
                    let refusal = Err(OTelSdkError::OutOfMemory);
                    set_slot(&mut self.slots, p, Slot::Answered(refusal));
                    self.worker = Worker::Ready;
                    return Outcome::Finished(None);
                }
                self.worker = Worker::Closing(p);
                Outcome::Finished(None)
            }
        }
    }

    pub(super) fn close(&mut self) -> Outcome
        ensures row { CloseRow (counts self.old) result (counts self.new) }
        ensures moved { MovesSpans E.SpanExporter self.old step.Close result self.new }
    {
        let Worker::Closing(p) = self.worker else {
            return Outcome::NotEnabled;
        };
        let _ = self.exporter.shutdown();
        set_slot(&mut self.slots, p, Slot::Answered(Ok(())));
        drop_requests(&mut self.messages, &mut self.slots, self.alloc);
        self.closed = true;
        self.worker = Worker::Gone;
        Outcome::ShutDown(self.waiting.len())
    }
}

/// What a drain answers so far, after one more answer: the first error stays.
fn keep_failure(so_far: &mut OTelSdkResult, answer: OTelSdkResult)
    ensures { so_far.new ≡ first_failure so_far.old answer }
{
    if so_far.is_ok() {
        *so_far = answer;
    }
}
