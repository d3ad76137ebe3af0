//! The batch queue in front of an exporter of lines, in any form: what it accepted is in the bytes of a stream.

ghost use Rattle.std.specs.Prelude.{List};
ghost use Rattle.otel_batch.specs.MachineState.{Machine};
ghost use Rattle.otel_batch.specs.declared.machine.step.Outcome.{Outcome};
ghost use Rattle.otel_batch.specs.declared.machine.step.Step.{Step};
ghost use Rattle.otel_lines.specs.LineExporter.{LinedBatch, StreamExporter};
ghost use Rattle.otel_laws.specs.QueueLines.{LinesHoldSpans, RanOverLines};

use otel_export::trace::SpanExporter;
use otel_lines::{BatchForm, LineExporter};
use std::io::Write;

/// Over every list of steps of any number of producers and one worker, where no batch failed to be written: the sampled
/// spans that the queue accepted are, in order and each once, those in lines of the output, those in the worker's hand
/// and those that wait. It does nothing; its contract is the law.
pub fn accepted_spans_are_in_lines<F: BatchForm, W: Write + Drop>()
    ensures { (first : W) (xs : List Step) (os : List Outcome) (t : Machine (StreamExporter W))
        (lined : List LinedBatch)
        → RanOverLines ⟦<LineExporter<F, W> as SpanExporter>⟧ first xs os t lined
        → LinesHoldSpans F.form W.contents first xs os t lined }
{}
