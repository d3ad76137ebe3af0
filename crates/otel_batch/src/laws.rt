//! The laws of runs of the batch queue, over the definitions alone. Each function does nothing; its contract is the
//! law, for every exporter. What `BatchMachine::step` promises of one step is an `IsStep`, which is a run of one step,
//! and runs are joined: so a caller that takes its steps one at a time has of them all together what
//! `BatchMachine::run` promises.

ghost use Rattle.std.specs.Prelude.{◌≡◌, ℕ, ◌<◌, ◌≤◌, ◌+◌, List, [], ◌∷◌, ◌++◌, true, length, slice_get};
ghost use Rattle.otel_batch.specs.MachineState.{Machine, Counts, counts, stranded_in};
ghost use Rattle.otel_batch.specs.Slots.{slot_waits};
ghost use Rattle.otel_batch.specs.Workers.{is_gone};
ghost use Rattle.otel_batch.specs.SoundMachine.{IsSound};
ghost use Rattle.otel_batch.specs.PermittedStep.{IsPermitted};
ghost use Rattle.otel_batch.specs.MachineRun.{Run, SplitsRun, IsStep, accepted, batch_sizes, counted_up, full_sends};
ghost use Rattle.otel_batch.specs.MachineRun.{holds_at};
ghost use Rattle.otel_batch.specs.Conservation.{Conserves, IsFirst, LosesNoSpan};
ghost use Rattle.otel_batch.specs.KnownRequests.{KnowsRequests};
ghost use Rattle.otel_batch.specs.ShutdownSilence.{SilentAfterShutdown, StaysSilent};
ghost use Rattle.otel_batch.specs.StrandedSpans.{AllAreCounted, CountsStranded};
ghost use Rattle.otel_batch.specs.Drains.{BoundsDrains, CompletesDrains, FitBatches, is_workers, largest_batch};
ghost use Rattle.otel_batch.specs.DrainAnswers.{AnswersDrains};
ghost use Rattle.otel_batch.specs.WorkLeft.{is_work, work_added, work_left, work_steps};
ghost use Rattle.otel_batch.specs.declared.machine.step.Outcome.{Outcome};
ghost use Rattle.otel_batch.specs.declared.machine.step.Outcome.TheVariants as outcome;
ghost use Rattle.otel_batch.specs.declared.machine.step.Step.{Step};
ghost use Rattle.otel_batch.specs.declared.machine.step.Step.TheVariants as step;

use otel_export::trace::SpanExporter;

/// A step is a run of one step.
pub fn a_step_is_a_run<E: SpanExporter>()
    ensures { (s t : Machine E) (x : Step) (o : Outcome)
        → IsStep E.SpanExporter s x o t → Run E.SpanExporter s (x ∷ []) (o ∷ []) t }
{}

/// A run and one that goes on where it ended are one run.
pub fn runs_are_joined<E: SpanExporter>()
    ensures { (s m t : Machine E) (xs ys : List Step) (os ps : List Outcome)
        → Run E.SpanExporter s xs os m → Run E.SpanExporter m ys ps t
        → Run E.SpanExporter s (xs ++ ys) (os ++ ps) t }
{}

/// A run is split at any place: after its first steps is a machine from which the others run.
pub fn runs_are_split<E: SpanExporter>()
    ensures { (s t : Machine E) (xs ys : List Step) (os : List Outcome)
        → Run E.SpanExporter s (xs ++ ys) os t → SplitsRun E.SpanExporter s xs ys os t }
{}

/// A run from a machine that keeps its invariants ends in one that does.
pub fn runs_stay_sound<E: SpanExporter>()
    ensures { (s t : Machine E) (xs : List Step) (os : List Outcome)
        → IsSound (counts s) → Run E.SpanExporter s xs os t → IsSound (counts t) }
{}

/// What was in hand and waited, followed by what a run accepted, was handed over, is in hand or waits, in order and
/// each once. From a new machine on that is what it accepted alone.
pub fn runs_lose_no_span<E: SpanExporter>()
    ensures any { (s t : Machine E) (xs : List Step) (os : List Outcome)
        → Run E.SpanExporter s xs os t
        → Conserves E.SpanExporter s (accepted (holds_at s.control.slots) xs os) (batch_sizes os) t }
    ensures new { (s t : Machine E) (xs : List Step) (os : List Outcome)
        → IsFirst s → Run E.SpanExporter s xs os t → LosesNoSpan E.SpanExporter s xs os t }
{}

/// Each send that met a full queue is counted, up to the greatest `u64`.
pub fn runs_count_full_sends<E: SpanExporter>()
    ensures { (s t : Machine E) (xs : List Step) (os : List Outcome)
        → IsSound (counts s) → Run E.SpanExporter s xs os t
        → t.control.dropped ≡ counted_up s.control.dropped (full_sends xs os) }
{}

/// A finished drain that found memory handed over all that waited at its load, and all that was there before.
pub fn runs_complete_drains<E: SpanExporter>()
    ensures { (s t : Machine E) (xs : List Step) (os : List Outcome)
        → IsSound (counts s) → Run E.SpanExporter s xs os t → CompletesDrains E.SpanExporter s xs os t }
{}

/// A finished drain's answer is what its outcomes say: the first error among those of its batches and that there was no
/// memory for one, or Ok. Who asked for a flush has it. A shutdown that found no memory leaves the machine open.
pub fn runs_answer_drains<E: SpanExporter>()
    ensures { (s t : Machine E) (xs : List Step) (os : List Outcome)
        → IsSound (counts s) → Run E.SpanExporter s xs os t → AnswersDrains E.SpanExporter s xs os t }
{}

/// A drain takes a bounded number of the worker's steps, and no batch is empty or too large.
pub fn runs_bound_drains<E: SpanExporter>()
    ensures bounded { (s t : Machine E) (xs : List Step) (os : List Outcome)
        → IsSound (counts s) → Run E.SpanExporter s xs os t → BoundsDrains s.control xs os }
    ensures batches { (s t : Machine E) (xs : List Step) (os : List Outcome)
        → IsSound (counts s) → Run E.SpanExporter s xs os t → FitBatches (largest_batch s.control) (batch_sizes os) }
{}

/// The target of a drain is at least what waited at its load, and at most the size of the queue and the number of
/// producers.
pub fn targets_cover_what_waits()
    ensures covers { (s t : Counts) (n : ℕ) → IsSound s → IsPermitted s step.Load (outcome.Loaded n) t
        → s.waiting ≤ n }
    ensures fits { (s t : Counts) (n : ℕ) → IsSound s → IsPermitted s step.Load (outcome.Loaded n) t
        → n ≤ s.control.queue_size + length s.control.slots }
{}

/// Each step of the worker lessens the work that is left, but for one that was not enabled or found nothing to do, and
/// the timer's.
pub fn the_worker_lessens_its_work()
    ensures { (s t : Counts) (x : Step) (o : Outcome) → IsPermitted s x o t
        → is_workers x ≡ true → is_work o ≡ true → work_left t < work_left s }
{}

/// In a run the worker takes at most as many of these steps as are left at its start, and are added in it by what
/// producers put into the queues and by the timer.
pub fn runs_bound_the_worker<E: SpanExporter>()
    ensures { (s t : Machine E) (xs : List Step) (os : List Outcome) → Run E.SpanExporter s xs os t
        → work_steps xs os + work_left (counts t) ≤ work_left (counts s) + work_added os }
{}

/// Each request is in the control queue, with the worker or answered, in one of the three and once, up to the step that
/// collects its answer.
pub fn runs_lose_no_request<E: SpanExporter>()
    ensures { (s t : Machine E) (xs : List Step) (os : List Outcome)
        → IsSound (counts s) → Run E.SpanExporter s xs os t → KnowsRequests E.SpanExporter s xs os t }
{}

/// Once the worker is gone nobody waits for an answer.
pub fn nobody_waits_once_the_worker_is_gone()
    ensures { (s : Counts) → IsSound s → is_gone s.control.worker ≡ true → (p : ℕ)
        → slot_waits (slice_get s.control.slots p) ≡ 0 }
{}

/// Nothing follows a shutdown: neither one in the run nor one before it.
pub fn runs_are_silent_after_a_shutdown<E: SpanExporter>()
    ensures within { (s t : Machine E) (xs : List Step) (os : List Outcome)
        → Run E.SpanExporter s xs os t → SilentAfterShutdown E.SpanExporter s xs os t }
    ensures before { (s t : Machine E) (xs : List Step) (os : List Outcome)
        → IsSound (counts s) → Run E.SpanExporter s xs os t → s.control.closed ≡ true → StaysSilent s os t }
{}

/// A shutdown says how many spans it leaves waiting: what was in hand or waited and what a run accepted is what was
/// handed over, and those. A machine that is closed keeps their number.
pub fn runs_count_stranded_spans<E: SpanExporter>()
    ensures any { (s t : Machine E) (xs : List Step) (os : List Outcome)
        → Run E.SpanExporter s xs os t → CountsStranded s xs os t }
    ensures new { (s t : Machine E) (xs : List Step) (os : List Outcome)
        → IsFirst s → Run E.SpanExporter s xs os t → AllAreCounted xs os }
    ensures stays { (s t : Machine E) (xs : List Step) (os : List Outcome) → IsSound (counts s)
        → Run E.SpanExporter s xs os t → s.control.closed ≡ true → stranded_in t ≡ stranded_in s }
{}
