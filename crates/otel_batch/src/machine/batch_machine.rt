//! The batch queue itself: what it is made of, how it is made and read, and its steps.

ghost use Rattle.std.specs.Prelude.{◌≡◌, ◌++◌, List, [], IsOk, IfOk, IfErr, OnOk, length, slice_get};

use crate::machine::slots::idle_slots;
use crate::machine::span_queue::SpanQueue;
use crate::machine::state::{Message, Request, Slot, Why, Worker};
use crate::machine::step::{Outcome, Step};
use crate::trace::batch_config::BatchConfig;
use circular_buffer::HeapCircularBuffer;
use otel_export::error::OTelSdkResult;
use otel_export::trace::{SpanData, SpanExporter};
use std::alloc::{AllocError, AllocFailed, Global};
use std::marker::Model;

/// A batch queue with its producers, its worker and its exporter. All memory is taken when it is made, but that of a
/// batch, and that of the reason that a shutdown writes to each request that it drops, which is empty where there is
/// none.
#[derive(Drop)]
pub struct BatchMachine<E> {
    pub(super) alloc: Global,
    pub(super) exporter: E,
    pub(super) waiting: SpanQueue<SpanData>,
    pub(super) hand: Vec<SpanData>,
    pub(super) messages: HeapCircularBuffer<Message>,
    pub(super) slots: Vec<Slot>,
    pub(super) counter: u128,
    pub(super) flag: bool,
    pub(super) dropped: u64,
    pub(super) closed: bool,
    pub(super) worker: Worker,
    pub(super) why: Why,
    pub(super) target: u128,
    pub(super) done: u128,
    pub(super) result: OTelSdkResult,
    pub(super) refused: bool,
    pub(super) batch_size: usize,
}

impl<E> Model for BatchMachine<E> {
    ghost use Rattle.std.specs.Coded.{codes};
    ghost use Rattle.otel_resource.specs.ResourceCode.{resource_code};
    ghost use Rattle.otel_batch.specs.MachineState.{Machine};

    ghost Value = { Machine E };

    ghost coded = { Prim.hlevel (codes, resource_code) };

    ghost use Rattle.otel_batch.specs.MachineFields.{machine_in, IsKeptIn};

    ghost view = { machine_in };

    ghost invariant = { IsKeptIn };
}

impl<E> BatchMachine<E> {
    ghost use Rattle.std.specs.Prelude.{option_copied};
    ghost use Rattle.otel_batch.specs.MachineState.{counts, stranded_in};
    ghost use Rattle.otel_batch.specs.SoundMachine.{IsSound};
    ghost use Rattle.otel_batch.specs.Drains.{has_full_batch};

    /// How many spans wait.
    pub fn waiting_len(&self) -> usize
        ensures { result ≡ length self.now.waiting }
    {
        self.waiting.len()
    }

    /// Whether as many spans wait as a batch has: as many as the size of a batch, or where that is zero as many as may
    /// wait.
    pub fn has_full_batch(&self) -> bool
        ensures { result ≡ has_full_batch self.now }
    {
        if self.batch_size == 0 {
            self.waiting.is_full()
        } else {
            self.batch_size <= self.waiting.len()
        }
    }

    /// A span that waits, the oldest first.
    pub fn waiting(&self, index: usize) -> Option<&SpanData>
        ensures { option_copied result ≡ slice_get self.now.waiting index }
    {
        self.waiting.get(index)
    }

    /// The spans in the worker's hand.
    pub fn hand(&self) -> &[SpanData]
        ensures { result.now ≡ self.now.hand }
    {
        self.hand.as_slice()
    }

    /// What a producer is at.
    pub fn slot(&self, producer: usize) -> Option<&Slot>
        ensures { option_copied result ≡ slice_get self.now.control.slots producer }
    {
        self.slots.get(producer)
    }

    /// What the worker is at.
    pub fn worker(&self) -> &Worker
        ensures { result.now ≡ self.now.control.worker }
    {
        &self.worker
    }

    /// How many spans are accounted for.
    pub fn counter(&self) -> u128
        ensures { result ≡ self.now.control.counter }
    {
        self.counter
    }

    /// How many messages the control queue has.
    pub fn messages_len(&self) -> usize
        ensures { result ≡ length self.now.control.messages }
    {
        self.messages.len()
    }

    /// How many spans found the queue full. It stops at the greatest `u64`.
    pub fn dropped_count(&self) -> u64
        ensures { result ≡ self.now.control.dropped }
    {
        self.dropped
    }

    /// Whether a shutdown was completed.
    pub fn is_closed(&self) -> bool
        ensures { result ≡ self.now.control.closed }
    {
        self.closed
    }

    /// How many spans a completed shutdown left waiting, for good. None before.
    pub fn stranded(&self) -> Option<usize>
        ensures { result ≡ stranded_in self.now }
    {
        if self.closed {
            return Some(self.waiting.len());
        }
        None
    }

    /// The exporter, to read what it has kept.
    pub fn exporter(&self) -> &E
        ensures { result.now ≡ self.now.exporter }
    {
        &self.exporter
    }

    /// What holds of every machine. It does nothing: a caller calls it for what its clause says of the machine in hand.
    pub fn is_sound(&self)
        ensures { IsSound (counts self.now) }
    {
        let _ = &self.closed;
    }
}

impl<E: SpanExporter> BatchMachine<E> {
    ghost use Rattle.otel_batch.specs.MachineState.{counts, first_machine};
    ghost use Rattle.otel_batch.specs.SoundMachine.{IsSound};
    ghost use Rattle.otel_batch.specs.RunsTo.{RunsTo};
    ghost use Rattle.otel_batch.specs.KeptRequests.{KeepsRequests};
    ghost use Rattle.otel_batch.specs.GoingOn.{GoesOn};
    ghost use Rattle.otel_batch.specs.declared.machine.step.Outcome.{Outcome};
    ghost use Rattle.otel_batch.specs.PermittedStep.{IsPermitted};
    ghost use Rattle.otel_batch.specs.MovedSpans.{MovesSpans};

    /// A machine with so many producers, in which nothing waits. It takes the room of the queue, the control queue and
    /// the producers, and fails where there is no memory for them.
    pub fn new(
        alloc: Global,
        exporter: E,
        config: BatchConfig,
        producers: usize,
    ) -> Result<BatchMachine<E>, AllocError>
        ensures first { IfOk result (λ m. m ≡ first_machine exporter config producers) }
        ensures sound { IfOk result (λ m. IsSound (counts m)) }
    {
        let batch_size = config.max_export_batch_size();
        let waiting = SpanQueue::with_capacity(alloc, config.max_queue_size())?;
        let messages = HeapCircularBuffer::with_capacity(alloc, 64)?;
        let slots = idle_slots(alloc, producers)?;
        let machine = BatchMachine {
            alloc,
            exporter,
            waiting,
            hand: Vec::new(alloc),
            messages,
            slots,
            counter: 0,
            flag: false,
            dropped: 0,
            closed: false,
            worker: Worker::Ready,
            why: Why::Asked,
            target: 0,
            done: 0,
            result: Ok(()),
            refused: false,
            batch_size,
        };
        machine.is_sound();
        Ok(machine)
    }

    /// One step of a producer or of the worker. Where it is not enabled, or names no producer, nothing changes, and its
    /// span or resource is dropped.
    pub fn step(&mut self, step: Step) -> Outcome
        ensures permitted { IsPermitted (counts self.old) step result (counts self.new) }
        ensures moved { MovesSpans E.SpanExporter self.old step result self.new }
        // Who waits for an answer goes on waiting until one that is its own, and has that until it collects it.
        ensures requests { KeepsRequests (counts self.old) step result (counts self.new) }
        // The worker can go on until it is gone.
        ensures goes_on { GoesOn (counts self.old) step result }
        ensures sound { IsSound (counts self.new) }
    {
        self.is_sound();
        let outcome = self.dispatch(step);
        self.is_sound();
        outcome
    }

    /// Takes these steps, one after another, and appends their outcomes. The room for the outcomes is taken first;
    /// where there is no memory for it the steps come back, and nothing has changed.
    pub fn run(
        &mut self,
        steps: Vec<Step>,
        outcomes: &mut Vec<Outcome>,
    ) -> Result<(), AllocFailed<Vec<Step>>>
        // The outcomes of these steps go after those that were there; all that holds of them is a field of `RunsTo`.
        ensures ok { OnOk result ((os : List Outcome)
            × (outcomes.new.items ≡ outcomes.old.items ++ os)
            × RunsTo E.SpanExporter self.old steps.items os self.new) }
        ensures err { IfErr result (λ e. (e.value ≡ steps)
            × (self.new ≡ self.old)
            × (outcomes.new.items ≡ outcomes.old.items)) }
        // No steps need no memory.
        ensures free { steps.items ≡ [] → IsOk result }
    {
        self.is_sound();
        if let Err(_) = outcomes.reserve(steps.len()) {
            return Err(AllocFailed { value: steps });
        }
        let mut rest = steps.into_iter();
        while let Some(step) = rest.next() {
            let outcome = self.step(step);
            outcomes.push_reserved(outcome);
        }
        Ok(())
    }

    fn dispatch(&mut self, step: Step) -> Outcome
        ensures permitted { IsPermitted (counts self.old) step result (counts self.new) }
        ensures moved { MovesSpans E.SpanExporter self.old step result self.new }
    {
        match step {
            Step::Offer(p, span) => self.offer(p, span),
            Step::Send(p) => self.send(p),
            Step::Undo(p) => self.undo(p),
            Step::Ask(p) => self.ask(p),
            Step::Post(p) => self.post(p),
            Step::Reset(p) => self.reset(p),
            Step::RequestFlush(p) => self.request(Request::Flush, p),
            Step::RequestShutdown(p) => self.request(Request::Shutdown, p),
            Step::Collect(p) => self.collect(p),
            Step::PostResource(resource) => self.post_resource(resource),
            Step::Take => self.take(),
            Step::Tick => self.tick(),
            Step::Clear => self.clear(),
            Step::Load => self.load(),
            Step::Pull => self.pull(),
            Step::HandOver => self.hand_over(),
            Step::Subtract => self.subtract(),
            Step::Finish => self.finish(),
            Step::Close => self.close(),
        }
    }
}
