//! The mode `steps`: the lines of a text are steps of a batch queue over an exporter in memory, taken one by one, and
//! each is answered by a line.

ghost use Rattle.std.specs.Prelude.{◌≡◌, ◌++◌, List, [], Option, ℕ, IfOk, IsOk, OnErr, OnOk};
ghost use Rattle.opentelemetry.specs.Text.{TextGrows};
ghost use Rattle.otel_batch.specs.MachineRun.{IsStep};
ghost use Rattle.otel_trace_steps.specs.StepAnswers.{AnswersBeginning, AnswersLines, Obeys, ObeysUntold, machine_of, memory_calls};
ghost use Rattle.otel_trace_steps.specs.StepTexts.{outcome_text};

use crate::steps::step_lines::{Order, order_of};
use crate::steps::step_texts::{push_outcome, push_state};
use otel_batch::machine::{BatchMachine, Outcome, Step};
use otel_batch::trace::BatchConfigBuilder;
use otel_export::trace::InMemorySpanExporter;
use otel_trace_lines::fields::first_line;
use otel_trace_lines::reply_text::write_text;
use std::alloc::{AllocError, Global};

pub mod step_lines;
mod step_texts;

/// How many spans may wait, how many a batch may have, and how many producers there are.
#[derive(Clone, Copy, Debug, PartialEq, Eq)]
pub struct Sizes {
    pub queue: usize,
    pub batch: usize,
    pub producers: usize,
}

/// A new machine of these sizes. A batch has no more spans than may wait. Fails where its queues find no memory.
pub fn machine_sized(
    alloc: Global,
    sizes: Sizes,
) -> Result<BatchMachine<InMemorySpanExporter>, AllocError>
    ensures { IfOk result (λ machine. machine ≡ machine_of sizes) }
{
    let config = BatchConfigBuilder::default()
        .with_max_queue_size(sizes.queue)
        .with_max_export_batch_size(sizes.batch)
        .build();
    BatchMachine::new(
        alloc,
        InMemorySpanExporter::new(alloc),
        config,
        sizes.producers,
    )
}

/// Takes the steps that the lines of a text spell, one by one, and appends the line that answers each. At its end and
/// at a bad line no further step is taken; a bad line's number is answered, from 1 and with empty lines
/// counted. Where memory runs out, a beginning of the lines was obeyed and answered, and at most one more step was
/// taken; a text whose answer is empty wants none.
pub fn answer_lines(
    alloc: Global,
    machine: &mut BatchMachine<InMemorySpanExporter>,
    text: &[u8],
    out: &mut Vec<u8>,
) -> Result<Option<u64>, AllocError>
    ensures answered { IfOk result (λ bad_line. (answers : List ℕ) × (out.new.items ≡ out.old.items ++ answers)
        × AnswersLines machine.old text.now bad_line answers machine.new) }
    ensures err { OnErr result ((answers : List ℕ) × (out.new.items ≡ out.old.items ++ answers)
        × AnswersBeginning machine.old text.now answers machine.new) }
    ensures free { (bad_line : Option ℕ) → AnswersLines machine.old text.now bad_line [] machine.old
        → IsOk result }
{
    let mut answer = String::new(alloc);
    let mut number: u64 = 0;
    let mut rest = text;
    while let Some((line, after)) = first_line(rest) {
        rest = after;
        number += 1;
        if line.is_empty() {
            continue;
        }
        let Some(order) = order_of(alloc, line)? else {
            return Ok(Some(number));
        };
        obey(machine, order, &mut answer, out)?;
    }
    Ok(None)
}

/// Takes one step, or looks at the state, and appends the line that answers it. Where there is no memory for the line,
/// the step was taken. The line is put together in `answer`, whose room serves one line after another.
fn obey(
    machine: &mut BatchMachine<InMemorySpanExporter>,
    order: Order,
    answer: &mut String,
    out: &mut Vec<u8>,
) -> Result<(), AllocError>
    ensures ok { OnOk result ((text : List ℕ) × (out.new.items ≡ out.old.items ++ text)
        × Obeys machine.old order text machine.new) }
    ensures err { OnErr result ((out.new.items ≡ out.old.items) × ObeysUntold machine.old order machine.new) }
{
    answer.clear();
    match order {
        Order::Step(step) => take_step(machine, step, answer)?,
        Order::State => push_state(answer, machine)?,
    }
    answer.push('\n')?;
    write_text(out, answer.as_str())
}

/// Takes one step, and appends the text of its outcome. Where there is no memory for that, the step was taken.
fn take_step(
    machine: &mut BatchMachine<InMemorySpanExporter>,
    step: Step,
    answer: &mut String,
) -> Result<(), AllocError>
    ensures ok { OnOk result ((outcome : Outcome) × IsStep memory_calls machine.old step outcome machine.new
        × TextGrows answer.old (outcome_text machine.new.hand outcome) answer.new) }
    ensures err { OnErr result ((outcome : Outcome) × IsStep memory_calls machine.old step outcome machine.new) }
{
    let outcome = machine.step(step);
    push_outcome(answer, &outcome, machine.hand())
}
