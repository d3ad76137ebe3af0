//! The texts that answer the steps of a batch queue.

ghost use Rattle.std.specs.Prelude.{◌≡◌, ◌++◌, OnOk, map, codes};
ghost use Rattle.opentelemetry.specs.Text.{TextGrows};
ghost use Rattle.otel_trace_steps.specs.StepTexts.{counts_text, pulled_name, names_text, outcome_text, state_text, told_text};

use otel_batch::machine::{BatchMachine, Outcome};
use otel_console::span_text::push_comma;
use otel_export::trace::{InMemorySpanExporter, SpanData};
use std::alloc::AllocError;
use std::fmt::Write;

/// What answers a step, where these spans are in hand after it.
pub fn push_outcome(
    text: &mut String,
    outcome: &Outcome,
    hand: &[SpanData],
) -> Result<(), AllocError>
    ensures { OnOk result (TextGrows text.old (outcome_text hand.now outcome.now) text.new) }
{
    match outcome {
        Outcome::Skipped => text.push_str("skipped"),
        Outcome::Counted(n) => write!(text, "counted {n}"),
        Outcome::Accepted => text.push_str("accepted"),
        Outcome::Full => text.push_str("full"),
        Outcome::Closed => text.push_str("closed"),
        Outcome::Undone => text.push_str("undone"),
        Outcome::AlreadyAsked => text.push_str("already asked"),
        Outcome::MayPost => text.push_str("may post"),
        Outcome::Posted => text.push_str("posted"),
        Outcome::ResetDone => text.push_str("reset"),
        Outcome::Requested => text.push_str("requested"),
        Outcome::Collected(Ok(())) => text.push_str("collected ok"),
        Outcome::Collected(Err(error)) => write!(text, "collected {error}"),
        Outcome::Nothing => text.push_str("nothing"),
        Outcome::TookExport => text.push_str("took export"),
        Outcome::TookFlush(p) => write!(text, "took flush {p}"),
        Outcome::TookShutdown(p) => write!(text, "took shutdown {p}"),
        Outcome::TookResource => text.push_str("took resource"),
        Outcome::Ticked => text.push_str("ticked"),
        Outcome::Cleared => text.push_str("cleared"),
        Outcome::Loaded(target) => write!(text, "loaded {target}"),
        Outcome::Empty => text.push_str("empty"),
        Outcome::Pulled => push_pulled(text, hand),
        Outcome::NoMemory => text.push_str("no memory"),
        Outcome::HandedOver(count, _) => write!(text, "handed over {count}"),
        Outcome::Subtracted => text.push_str("subtracted"),
        Outcome::Finished(None) => text.push_str("finished"),
        Outcome::Finished(Some(error)) => write!(text, "finished {error}"),
        Outcome::ShutDown(count) => write!(text, "shut down {count}"),
        Outcome::NotEnabled => text.push_str("not enabled"),
    }
}

/// `pulled` and the name of the span, which is the last one in hand.
fn push_pulled(text: &mut String, hand: &[SpanData]) -> Result<(), AllocError>
    ensures { OnOk result (TextGrows text.old (codes "pulled " ++ pulled_name hand.now) text.new) }
{
    text.push_str("pulled ")?;
    match hand.last() {
        Some(span) => text.push_str(span.name.as_str()),
        None => Ok(()),
    }
}

/// The names of spans, in brackets.
fn push_names(text: &mut String, spans: &[SpanData]) -> Result<(), AllocError>
    ensures { OnOk result (TextGrows text.old (names_text spans.now) text.new) }
{
    text.push('[')?;
    for (i, span) in spans.iter().enumerate() {
        push_comma(text, i)?;
        text.push_str(span.name.as_str())?;
    }
    text.push(']')
}

/// The names of the spans that wait, in brackets.
fn push_waiting(
    text: &mut String,
    machine: &BatchMachine<InMemorySpanExporter>,
) -> Result<(), AllocError>
    ensures { OnOk result (TextGrows text.old (names_text machine.now.waiting) text.new) }
{
    text.push('[')?;
    for i in 0..machine.waiting_len() {
        push_comma(text, i)?;
        let Some(span) = machine.waiting(i) else {
            unreachable!();
        };
        text.push_str(span.name.as_str())?;
    }
    text.push(']')
}

/// The batches that an exporter kept, each after a space, or a dash.
fn push_told(text: &mut String, batches: &[Vec<SpanData>]) -> Result<(), AllocError>
    ensures { OnOk result (TextGrows text.old (told_text (map (λ batch. batch.items) batches.now)) text.new) }
{
    if batches.is_empty() {
        return text.push_str(" -");
    }
    for batch in batches {
        text.push(' ')?;
        push_names(text, batch)?;
    }
    Ok(())
}

/// What a machine counts, and whether it is shut down.
#[tactic(auto, using(std::proofs::lemmas::List::append_assoc))]
fn push_counts(
    text: &mut String,
    machine: &BatchMachine<InMemorySpanExporter>,
) -> Result<(), AllocError>
    ensures { OnOk result (TextGrows text.old (counts_text machine.now) text.new) }
{
    let counter = machine.counter();
    let dropped = machine.dropped_count();
    write!(text, "counter {counter} dropped {dropped} ")?;
    text.push_str(if machine.is_closed() {
        "closed"
    } else {
        "open"
    })
}

/// What a machine's state is.
#[tactic(auto, using(std::proofs::lemmas::List::append_assoc))]
pub fn push_state(
    text: &mut String,
    machine: &BatchMachine<InMemorySpanExporter>,
) -> Result<(), AllocError>
    ensures { OnOk result (TextGrows text.old (state_text machine.now) text.new) }
{
    text.push_str("waiting ")?;
    push_waiting(text, machine)?;
    text.push_str(" hand ")?;
    push_names(text, machine.hand())?;
    text.push_str(" told")?;
    push_told(text, machine.exporter().batches())?;
    text.push(' ')?;
    push_counts(text, machine)
}
