//! What a batch processor does with its queue, which has one producer: a span is offered and goes as far as it goes, a
//! request is carried out, and the worker works until it has nothing to do. Between two calls the queue is at rest.

ghost use Rattle.std.specs.Prelude.{◌≡◌, ◌==◌, ◌&&◌, not, ℕ, true, false, List, [], ◌∷◌, Some, Ok, OnOk, slice_get};
ghost use Rattle.std.specs.Prelude.{if◌then◌else◌, length};
ghost use Rattle.std.specs.Result.{result_err};
ghost use Rattle.std.specs.declared.alloc.AllocError.{AllocError};
ghost use Rattle.otel_export.specs.PlainSpanData.{is_sampled};
ghost use Rattle.otel_export.specs.ExporterCalls.{IsInternalFailure};
ghost use Rattle.otel_pipeline.specs.ProcessorTelling.{TakesNothing, TakesSpan};
ghost use Rattle.otel_batch.specs.Slots.{slot_waits};
ghost use Rattle.otel_batch.specs.KnownRequests.{step_of};
ghost use Rattle.otel_batch.specs.MachineState.{stranded_in};
ghost use Rattle.otel_batch.specs.MachineRun.{Run, counted_up};
ghost use Rattle.otel_batch.specs.Workers.{is_finishing};
ghost use Rattle.otel_batch.specs.declared.machine.state.Request.TheVariants as request;
ghost use Rattle.otel_batch.specs.declared.machine.step.Outcome as outcomes;
ghost use Rattle.otel_batch.specs.declared.machine.step.Step as steps;
ghost use Rattle.otel_batch.specs.WorkedOff.{CollectsAnswer, GoesBy, OffersSpan, PullsBatch, TicksAndWorks, WorkerWorks};
ghost use Rattle.otel_batch.specs.WorkedOff.{last_error, next_of_worker};
ghost use Rattle.otel_batch.specs.declared.machine.step.Step.TheVariants as step_kinds;
ghost use Rattle.otel_processors.specs.EagerExports.{DrainsBatch, EndsBatch, ExportsBatch, LeavesAtRest, WorksIfFull};
ghost use Rattle.otel_processors.specs.EagerExports.{failures_in, is_failed_export};
ghost use Rattle.otel_processors.specs.QueueRequests.{IsAtRest, MakesRequest, PostsResource, queue_telling};

use otel_batch::machine::{BatchMachine, Outcome, Request, Slot, Step, Worker};
use otel_export::error::{OTelSdkError, OTelSdkResult};
use otel_export::trace::{SpanData, SpanExporter};
use otel_resource::resource::Resource;
use std::alloc::Global;

/// The span is queued, or dropped: one that is not sampled, and one that finds the queue full or closed.
#[inline(always)]
pub(crate) fn offer_span<E: SpanExporter>(machine: &mut BatchMachine<E>, span: SpanData)
    requires { IsAtRest machine.old }
    ensures offers { OffersSpan E.SpanExporter machine.old span machine.new }
    ensures told { TakesSpan {T = Unit {0}} {E = AllocError} (queue_telling E.SpanExporter machine.old) span
        (Ok (tt {0})) (queue_telling E.SpanExporter machine.new) }
    ensures rest { IsAtRest machine.new }
{
    machine.is_sound();
    machine.put(span);
}

/// The resource is posted for the exporter; a full or closed queue drops it.
pub(crate) fn post_resource<E: SpanExporter>(machine: &mut BatchMachine<E>, resource: Resource)
    requires { IsAtRest machine.old }
    ensures posts { PostsResource E.SpanExporter machine.old resource machine.new }
    ensures told { queue_telling E.SpanExporter machine.new ≡ queue_telling E.SpanExporter machine.old }
    ensures rest { IsAtRest machine.new }
{
    drop(machine.step(Step::PostResource(resource)));
}

/// A flush or a shutdown is carried out. `AlreadyShutdown` after a completed shutdown, and an `InternalFailure` where
/// the control queue is full, change nothing.
pub(crate) fn make_request<E: SpanExporter>(
    machine: &mut BatchMachine<E>,
    alloc: Global,
    asked: Request,
) -> OTelSdkResult
    requires { IsAtRest machine.old }
    ensures { MakesRequest E.SpanExporter asked machine.old result machine.new }
{
    machine.is_sound();
    match post_request(machine, asked) {
        Outcome::Requested => answer_request(machine),
        Outcome::Closed => Err(OTelSdkError::AlreadyShutdown),
        other => {
            drop(other);
            Err(crowded(alloc))
        }
    }
}

/// The control queue has no room. The reason stays empty where there is no memory for it.
fn crowded(alloc: Global) -> OTelSdkError
    ensures { IsInternalFailure result }
{
    let reason = String::from_str(alloc, "control queue is full");
    OTelSdkError::InternalFailure(reason.unwrap_or(String::new(alloc)))
}

/// The worker works until it has nothing to do. The answer is that of its last drain, Ok where it had none, and the
/// exports that failed are counted.
pub(crate) fn run_worker<E: SpanExporter>(
    machine: &mut BatchMachine<E>,
    failed: &mut u64,
) -> OTelSdkResult
    requires { IsAtRest machine.old }
    ensures works { (works : WorkerWorks E.SpanExporter machine.old result machine.new)
        × (failed.new ≡ counted_up failed.old (failures_in works.outcomes)) }
    ensures told { TakesNothing (queue_telling E.SpanExporter machine.old) (queue_telling E.SpanExporter machine.new) }
    ensures closed { machine.new.control.closed ≡ machine.old.control.closed }
    ensures rest { IsAtRest machine.new }
{
    machine.is_sound();
    let answer = work_off_messages(machine, failed);
    machine.is_sound();
    answer
}

/// The timer runs out, and the worker carries its drain out. The answer is that of its last drain, and the exports that
/// failed are counted.
pub(crate) fn drain_by_tick<E: SpanExporter>(
    machine: &mut BatchMachine<E>,
    failed: &mut u64,
) -> OTelSdkResult
    requires { IsAtRest machine.old × (machine.old.control.closed ≡ false) }
    ensures drains { (drains : TicksAndWorks E.SpanExporter machine.old result machine.new)
        × (failed.new ≡ counted_up failed.old (failures_in drains.works.outcomes)) }
    ensures told { TakesNothing (queue_telling E.SpanExporter machine.old) (queue_telling E.SpanExporter machine.new) }
    ensures closed { machine.new.control.closed ≡ machine.old.control.closed }
    ensures rest { IsAtRest machine.new }
{
    machine.is_sound();
    drop(machine.step(Step::Tick));
    let answer = work_off_messages(machine, failed);
    machine.is_sound();
    answer
}

/// A sampled span ends at an open queue whose processor is eager: a batch that is full already is exported, the span is
/// offered, and where there was room so is the batch that it fills. A drain that found no memory is not tried again
/// after the offer. The answer is how many exports failed; it stops at the greatest `u64`.
pub(crate) fn offer_eagerly<E: SpanExporter>(machine: &mut BatchMachine<E>, span: SpanData) -> u64
    requires rest { IsAtRest machine.old }
    requires runs { machine.old.control.closed ≡ false }
    requires sampled { is_sampled span ≡ true }
    ensures ends { (failed : ℕ) × EndsBatch E.SpanExporter machine.old span failed machine.new
        × (result ≡ counted_up 0 failed) }
    ensures told { TakesSpan {T = Unit {0}} {E = AllocError} (queue_telling E.SpanExporter machine.old) span
        (Ok (tt {0})) (queue_telling E.SpanExporter machine.new) }
    ensures rest { IsAtRest machine.new }
{
    machine.is_sound();
    let failed = export_full_batch(machine);
    machine.is_sound();
    let is_full = machine.has_full_batch();
    offer_span(machine, span);
    if is_full {
        return failed;
    }
    failed.saturating_add(export_full_batch(machine))
}

/// Where as many spans wait as a batch has they are exported. The answer is how many exports failed.
fn export_full_batch<E: SpanExporter>(machine: &mut BatchMachine<E>) -> u64
    requires { IsAtRest machine.old × (machine.old.control.closed ≡ false) }
    ensures exports { (failed : ℕ) × ExportsBatch E.SpanExporter machine.old failed machine.new
        × (result ≡ counted_up 0 failed) }
    ensures leaves { LeavesAtRest E.SpanExporter machine.old machine.new }
{
    let failed = work_if_full(machine);
    failed.saturating_add(drain_if_full(machine))
}

/// Where as many spans wait as a batch has, the worker works until it has nothing to do. The answer is how many exports
/// failed.
fn work_if_full<E: SpanExporter>(machine: &mut BatchMachine<E>) -> u64
    requires { IsAtRest machine.old × (machine.old.control.closed ≡ false) }
    ensures works { (failed : ℕ) × WorksIfFull E.SpanExporter machine.old failed machine.new
        × (result ≡ counted_up 0 failed) }
    ensures leaves { LeavesAtRest E.SpanExporter machine.old machine.new }
{
    if !machine.has_full_batch() {
        return 0;
    }
    machine.is_sound();
    let mut failed = 0;
    drop(run_worker(machine, &mut failed));
    failed
}

/// Where as many spans wait as a batch has, the timer's drain is carried out. The answer is how many exports failed.
fn drain_if_full<E: SpanExporter>(machine: &mut BatchMachine<E>) -> u64
    requires { IsAtRest machine.old × (machine.old.control.closed ≡ false) }
    ensures drains { (failed : ℕ) × DrainsBatch E.SpanExporter machine.old failed machine.new
        × (result ≡ counted_up 0 failed) }
    ensures leaves { LeavesAtRest E.SpanExporter machine.old machine.new }
{
    if !machine.has_full_batch() {
        return 0;
    }
    machine.is_sound();
    let mut failed = 0;
    drop(drain_by_tick(machine, &mut failed));
    failed
}

/// The worker works until the producer has an answer to collect or there is nothing to do. The answer is that of its
/// last drain for which nobody waits, Ok where it had none, and the exports that failed are counted.
fn work_off_messages<E: SpanExporter>(
    machine: &mut BatchMachine<E>,
    failed: &mut u64,
) -> OTelSdkResult
    ensures { (works : WorkerWorks E.SpanExporter machine.old result machine.new)
        × (failed.new ≡ counted_up failed.old (failures_in works.outcomes)) }
{
    let mut answer = Ok(());
    let mut count = 0;
    while let Some(step) = worker_step_of(machine) {
        answer = work_on(machine, step, answer, &mut count);
    }
    *failed = failed.saturating_add(count);
    answer
}

/// The worker takes its next step, and where it pulls it goes on pulling. The answer is that of its last drain so far,
/// and an export that failed is counted.
fn work_on<E: SpanExporter>(
    machine: &mut BatchMachine<E>,
    step: Step,
    answer: OTelSdkResult,
    failed: &mut u64,
) -> OTelSdkResult
    requires { next_of_worker machine.old.control ≡ Some step }
    ensures { (xs : List steps.Step) × (o : outcomes.Outcome) × (os : List outcomes.Outcome)
        × GoesBy E.SpanExporter next_of_worker machine.old (step ∷ xs) (o ∷ os) machine.new
        × (result_err result ≡ last_error (result_err answer) (o ∷ os))
        × (failed.new ≡ counted_up failed.old (failures_in (o ∷ os))) }
{
    match step {
        Step::Pull => {
            pull_batch(machine, failed);
            answer
        }
        step => {
            let outcome = machine.step(step);
            count_failure(failed, is_failed_export(&outcome));
            answer_after(answer, outcome)
        }
    }
}

/// The worker fills its hand. A batch for which there is no memory is an export that failed.
fn pull_batch<E: SpanExporter>(machine: &mut BatchMachine<E>, failed: &mut u64)
    requires { next_of_worker machine.old.control ≡ Some step_kinds.Pull }
    ensures { (pulls : PullsBatch E.SpanExporter machine.old machine.new)
        × (failed.new ≡ counted_up failed.old (failures_in (pulls.pulled ∷ pulls.outcomes))) }
{
    machine.pull_batch();
    count_failure(failed, leaves_spans(machine));
}

/// Whether the worker ends its drain though spans wait. After a pull that is so where it found no memory for a batch.
fn leaves_spans<E>(machine: &BatchMachine<E>) -> bool
    ensures { result ≡ (is_finishing machine.now.control.worker && not (length machine.now.waiting == 0)) }
{
    match machine.worker() {
        Worker::Finishing => machine.waiting_len() != 0,
        _ => false,
    }
}

/// Whether the outcome is that of an export that failed: the exporter answered an error, or there was no memory for its
/// batch.
fn is_failed_export(outcome: &Outcome) -> bool
    ensures { result ≡ is_failed_export outcome.now }
{
    match outcome {
        Outcome::HandedOver(_, error) => error.is_some(),
        Outcome::NoMemory => true,
        _ => false,
    }
}

/// Counts an export that failed, up to the greatest `u64`.
fn count_failure(failed: &mut u64, has_failed: bool)
    ensures { failed.new ≡ counted_up failed.old (if has_failed then 1 else 0) }
{
    *failed = failed.saturating_add(u64::from(has_failed));
}

/// The last drain's answer after one more step.
fn answer_after(answer: OTelSdkResult, outcome: Outcome) -> OTelSdkResult
    ensures { result_err result ≡ last_error (result_err answer) (outcome ∷ []) }
{
    match outcome {
        Outcome::Finished(None) => {
            drop(answer);
            Ok(())
        }
        Outcome::Finished(Some(error)) => {
            drop(answer);
            Err(error)
        }
        other => {
            drop(other);
            answer
        }
    }
}

/// The worker's next step, if it has something to do and the producer has no answer.
fn worker_step_of<E: SpanExporter>(machine: &BatchMachine<E>) -> Option<Step>
    ensures { result ≡ next_of_worker machine.now.control }
{
    if let Some(Slot::Answered(_)) = machine.slot(0) {
        return None;
    }
    match machine.worker() {
        Worker::Gone => None,
        Worker::Ready if machine.messages_len() == 0 => None,
        Worker::Ready => Some(Step::Take),
        Worker::Clearing => Some(Step::Clear),
        Worker::Loading(_) => Some(Step::Load),
        Worker::Pulling => Some(Step::Pull),
        Worker::Handing => Some(Step::HandOver),
        Worker::Subtracting(_) => Some(Step::Subtract),
        Worker::Finishing => Some(Step::Finish),
        Worker::Closing(_) => Some(Step::Close),
    }
}

/// The producer asks the worker.
fn post_request<E: SpanExporter>(machine: &mut BatchMachine<E>, asked: Request) -> Outcome
    ensures { Run E.SpanExporter machine.old (step_of asked 0 ∷ []) (result ∷ []) machine.new }
{
    match asked {
        Request::Flush => machine.step(Step::RequestFlush(0)),
        Request::Shutdown => machine.step(Step::RequestShutdown(0)),
    }
}

/// The worker works until the producer that waits has its answer, which it collects.
fn answer_request<E: SpanExporter>(machine: &mut BatchMachine<E>) -> OTelSdkResult
    requires { slot_waits (slice_get machine.old.control.slots 0) ≡ 1 }
    ensures { CollectsAnswer E.SpanExporter machine.old result machine.new }
{
    let mut uncounted = 0;
    drop(work_off_messages(machine, &mut uncounted));
    machine.is_sound();
    match machine.step(Step::Collect(0)) {
        Outcome::Collected(answer) => answer,
        _ => unreachable!(),
    }
}
