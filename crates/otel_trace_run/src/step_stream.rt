//! The mode `steps` as a stream: lines are answered as they come, and what answers them is written and sent on before
//! more is read.

ghost use Rattle.std.specs.Prelude.{◌≡◌, ◌++◌, ◌+◌, ◌⊎◌, List, ℕ, IfOk, IfSome, OnErr, length};
ghost use Rattle.std.specs.Io.KnownBytes.{Appends};
ghost use Rattle.otel_export.specs.Streams.{AppendsBeginning};
ghost use Rattle.otel_trace_run.specs.StepRuns.{Steps, StepsOn};
ghost use Rattle.otel_trace_run.specs.Streams.{streams_of};
ghost use Rattle.otel_trace_steps.specs.StepAnswers.{AnswersLines, BeginsAnswers, machine_of};

use crate::line_count::{bad_line_after, lines_counted};
use crate::run_end::RunEnd;
use otel_batch::machine::BatchMachine;
use otel_export::stream::write_whole;
use otel_export::trace::InMemorySpanExporter;
use otel_trace_session::Pieces;
use otel_trace_steps::{Sizes, answer_lines, machine_sized};
use std::alloc::Global;
use std::io;
use std::io::{Read, Write};

/// Answers an input by the steps of a new batch queue. It fails where the exporter lost a batch, which a reply told.
pub fn step_input<R: Read, W: Write>(
    alloc: Global,
    sizes: Sizes,
    input: &mut R,
    output: &mut W,
) -> RunEnd
    ensures { Steps (machine_of sizes)
        (streams_of R.remaining input.old input.new W.contents output.old output.new) result }
{
    match machine_sized(alloc, sizes) {
        Ok(mut machine) => {
            let end = step_stream(alloc, &mut machine, input, output);
            if machine.exporter().lost_batches() > 0 {
                return RunEnd::Failed;
            }
            end
        }
        Err(_) => RunEnd::Failed,
    }
}

/// Answers an input by the steps of a batch queue.
fn step_stream<R: Read, W: Write>(
    alloc: Global,
    machine: &mut BatchMachine<InMemorySpanExporter>,
    input: &mut R,
    output: &mut W,
) -> RunEnd
    ensures { StepsOn machine.old machine.new
        (streams_of R.remaining input.old input.new W.contents output.old output.new) result }
{
    let mut pieces = Pieces::new(alloc);
    let mut answers = Vec::new(alloc);
    let mut before: u64 = 0;
    for _ in 0..u64::MAX {
        let Ok(goes_on) = pieces.read_on(input) else {
            return RunEnd::Failed;
        };
        match answer_piece(alloc, machine, pieces.lines(), &mut answers, output) {
            Ok(None) => {}
            Ok(Some(line)) => return bad_line_after(before, line, None),
            Err(_) => return RunEnd::Failed,
        }
        if !goes_on {
            return RunEnd::Done;
        }
        match lines_counted(before, pieces.lines()) {
            Some(count) => before = count,
            None => return RunEnd::Failed,
        }
    }
    RunEnd::Failed
}

/// Answers lines, and writes and sends on what answers them. The first bad line is answered, where there is one.
/// `answers` is room for the text.
fn answer_piece<W: Write>(
    alloc: Global,
    machine: &mut BatchMachine<InMemorySpanExporter>,
    text: &[u8],
    answers: &mut Vec<u8>,
    output: &mut W,
) -> io::Result<Option<u64>>
    ensures ok { IfOk result (λ bad_line. (written : List ℕ)
        × AnswersLines machine.old text.now bad_line written machine.new
        × Appends (W.contents output.old) (W.contents output.new) written) }
    ensures err { OnErr result ((written : List ℕ) × BeginsAnswers machine.old text.now written
        × AppendsBeginning (W.contents output.old) (W.contents output.new) written) }
{
    answers.clear();
    let answered = answer_lines(alloc, machine, text, answers);
    write_whole(output, answers)?;
    Ok(answered?)
}
